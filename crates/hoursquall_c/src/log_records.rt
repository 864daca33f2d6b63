// Records of the frame log, read and written.
ghost use Rattle.std.specs.Prelude.{◌≡◌};
ghost use Rattle.framelog.specs.Layout.{number_of, record_size};
ghost use Rattle.framelog.specs.Reading.{read_of};
ghost use Rattle.framelog.specs.Writing as LogWriting;
ghost use Rattle.hoursquall.specs.Answer.{told, left_lent, itself};

use hoursquall::answer::tell;

// Reads a record; `extent` receives the length of the frame, which stands from byte 4 on.
#[unsafe(no_mangle)]
pub extern "C" fn hs_log_read(slice: &[u8], extent: &mut usize) -> u32
    ensures value { result ≡ told number_of (read_of record_size slice.now) }
    ensures extent_after { extent.new ≡ left_lent itself (read_of record_size slice.now) extent.old }
{
    tell(framelog::read(slice), extent)
}

// Writes the record of a frame over all of `slice`.
#[unsafe(no_mangle)]
pub extern "C" fn hs_log_write(frame: &[u8], slice: &mut [u8]) -> u32
    ensures value { result ≡ told number_of (LogWriting.written record_size frame.now slice.old) }
    ensures slice_after { slice.new ≡ LogWriting.slice_after (LogWriting.written record_size frame.now slice.old) record_size frame.now slice.old }
{
    tell(framelog::write(frame, slice), &mut ())
}
