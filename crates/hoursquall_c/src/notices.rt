// The notice ring. Its positions are a block of two numbers, read and write, for a caller to keep between calls.
ghost use Rattle.std.specs.Prelude.{◌≡◌};
ghost use Rattle.notice.specs.Ring as Ring;
ghost use Rattle.hoursquall.specs.Answer.{told};
ghost use Rattle.hoursquall.specs.Notice.{positions_of_def, positions_after_post, positions_after_take, id_after, data_length_after};

use hoursquall::answer::tell;
use hoursquall::notices::{positions_of, tell_taken};

// Posts a notice to a ring.
#[unsafe(no_mangle)]
pub extern "C" fn hs_notice_post(
    ring: &mut [u8],
    positions: &mut [usize; 2],
    id: u32,
    body: &[u8],
) -> u32
    ensures value { result ≡ told Ring.number_of (Ring.posted ring.old (positions_of_def positions.old) id body.now) }
    ensures ring_after { ring.new ≡ Ring.ring_after (Ring.posted ring.old (positions_of_def positions.old) id body.now) ring.old (positions_of_def positions.old) id body.now }
    ensures positions_after { positions.new ≡ positions_after_post (Ring.posted ring.old (positions_of_def positions.old) id body.now) positions.old }
{
    let answer = notice::post(ring, positions_of(*positions), id, body);
    tell(answer, positions)
}

// Takes the oldest notice of a ring; its data goes to the start of `out`, `id` and `extent` receive its
// Notify ID and the data's length.
#[unsafe(no_mangle)]
pub extern "C" fn hs_notice_take(
    ring: &[u8],
    positions: &mut [usize; 2],
    out: &mut [u8],
    id: &mut u32,
    extent: &mut usize,
) -> u32
    ensures value { result ≡ told Ring.number_of (Ring.taken_of ring.now (positions_of_def positions.old) out.old) }
    ensures positions_after { positions.new ≡ positions_after_take (Ring.taken_of ring.now (positions_of_def positions.old) out.old) positions.old }
    ensures out_after { out.new ≡ Ring.output_after (Ring.taken_of ring.now (positions_of_def positions.old) out.old) ring.now (positions_of_def positions.old) out.old }
    ensures id_after { id.new ≡ id_after (Ring.taken_of ring.now (positions_of_def positions.old) out.old) id.old }
    ensures extent_after { extent.new ≡ data_length_after (Ring.taken_of ring.now (positions_of_def positions.old) out.old) extent.old }
{
    let answer = notice::take(ring, positions_of(*positions), out);
    tell_taken(answer, positions, id, extent)
}
