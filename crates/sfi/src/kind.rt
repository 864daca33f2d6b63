// The ten kinds of tables. A signature is handed in and out as the little-endian word of its four letters.
ghost use Rattle.std.specs.Prelude.{◌≡◌, ◌≤◌, ◌<◌};
ghost use Rattle.sfi.specs.Kinds as Kinds;
ghost use Rattle.sfi.specs.Checks.{header_size, length_of_def, older_revision, bad_entries, judged};

use crate::{Reason, Table, length_of};
use le::Word;

// A kind of table.
#[derive(Clone, Copy, Debug, PartialEq, Eq)]
pub struct Kind {
    pub signature: u32,
    // The size of an entry.
    pub entry: usize,
    // The oldest Revision that is read.
    pub revision: u8,
}

// Constants and a constructor for each of the ten: the scope names this form. A constant's value can call
// nothing, not even `u32::from_le_bytes(*b"SYST")`, so the letters are written as their word.
impl Kind {
    pub const SYST: u32 = 0x5453_5953;

    pub const SYST_ENTRY_SIZE: usize = 8;

    pub const SYST_REVISION: u8 = 1;

    pub fn syst() -> Self
        ensures { result ≡ Kinds.syst }
    {
        Kind {
            signature: Self::SYST,
            entry: Self::SYST_ENTRY_SIZE,
            revision: Self::SYST_REVISION,
        }
    }

    pub const CPUS: u32 = 0x5355_5043;

    pub const CPUS_ENTRY_SIZE: usize = 4;

    pub const CPUS_REVISION: u8 = 1;

    pub fn cpus() -> Self
        ensures { result ≡ Kinds.cpus }
    {
        Kind {
            signature: Self::CPUS,
            entry: Self::CPUS_ENTRY_SIZE,
            revision: Self::CPUS_REVISION,
        }
    }

    pub const APIC: u32 = 0x4349_5041;

    pub const APIC_ENTRY_SIZE: usize = 8;

    pub const APIC_REVISION: u8 = 1;

    pub fn apic() -> Self
        ensures { result ≡ Kinds.apic }
    {
        Kind {
            signature: Self::APIC,
            entry: Self::APIC_ENTRY_SIZE,
            revision: Self::APIC_REVISION,
        }
    }

    pub const MMAP: u32 = 0x5041_4D4D;

    // 4 + 4 × 8: the entries are packed, with no padding.
    pub const MMAP_ENTRY_SIZE: usize = 36;

    pub const MMAP_REVISION: u8 = 1;

    pub fn mmap() -> Self
        ensures { result ≡ Kinds.mmap }
    {
        Kind {
            signature: Self::MMAP,
            entry: Self::MMAP_ENTRY_SIZE,
            revision: Self::MMAP_REVISION,
        }
    }

    pub const FREQ: u32 = 0x5145_5246;

    pub const FREQ_ENTRY_SIZE: usize = 12;

    pub const FREQ_REVISION: u8 = 1;

    pub fn freq() -> Self
        ensures { result ≡ Kinds.freq }
    {
        Kind {
            signature: Self::FREQ,
            entry: Self::FREQ_ENTRY_SIZE,
            revision: Self::FREQ_REVISION,
        }
    }

    pub const MRTC: u32 = 0x4354_524D;

    pub const MRTC_ENTRY_SIZE: usize = 12;

    pub const MRTC_REVISION: u8 = 1;

    pub fn mrtc() -> Self
        ensures { result ≡ Kinds.mrtc }
    {
        Kind {
            signature: Self::MRTC,
            entry: Self::MRTC_ENTRY_SIZE,
            revision: Self::MRTC_REVISION,
        }
    }

    pub const DEVS: u32 = 0x5356_4544;

    pub const DEVS_ENTRY_SIZE: usize = 25;

    pub const DEVS_REVISION: u8 = 1;

    pub fn devs() -> Self
        ensures { result ≡ Kinds.devs }
    {
        Kind {
            signature: Self::DEVS,
            entry: Self::DEVS_ENTRY_SIZE,
            revision: Self::DEVS_REVISION,
        }
    }

    pub const GPIO: u32 = 0x4F49_5047;

    pub const GPIO_ENTRY_SIZE: usize = 34;

    pub const GPIO_REVISION: u8 = 1;

    pub fn gpio() -> Self
        ensures { result ≡ Kinds.gpio }
    {
        Kind {
            signature: Self::GPIO,
            entry: Self::GPIO_ENTRY_SIZE,
            revision: Self::GPIO_REVISION,
        }
    }

    pub const MTMR: u32 = 0x524D_544D;

    pub const MTMR_ENTRY_SIZE: usize = 16;

    pub const MTMR_REVISION: u8 = 2;

    pub fn mtmr() -> Self
        ensures { result ≡ Kinds.mtmr }
    {
        Kind {
            signature: Self::MTMR,
            entry: Self::MTMR_ENTRY_SIZE,
            revision: Self::MTMR_REVISION,
        }
    }

    pub const WAKE: u32 = 0x454B_4157;

    pub const WAKE_ENTRY_SIZE: usize = 8;

    pub const WAKE_REVISION: u8 = 2;

    pub fn wake() -> Self
        ensures { result ≡ Kinds.wake }
    {
        Kind {
            signature: Self::WAKE,
            entry: Self::WAKE_ENTRY_SIZE,
            revision: Self::WAKE_REVISION,
        }
    }

    // The kind with that signature.
    #[tactic(auto, unfolding(crate::specs::Kinds::among))]
    pub fn of(signature: u32) -> Option<Self>
        ensures { result ≡ Kinds.kind_of signature }
    {
        match signature {
            Self::SYST => Some(Self::syst()),
            Self::CPUS => Some(Self::cpus()),
            Self::APIC => Some(Self::apic()),
            Self::MMAP => Some(Self::mmap()),
            Self::FREQ => Some(Self::freq()),
            Self::MRTC => Some(Self::mrtc()),
            Self::DEVS => Some(Self::devs()),
            Self::GPIO => Some(Self::gpio()),
            Self::MTMR => Some(Self::mtmr()),
            Self::WAKE => Some(Self::wake()),
            _ => None,
        }
    }

    // Whether a Revision is older than the listed one. Newer ones stay readable.
    fn has_older_revision(self, revision: u8) -> bool
        ensures { result ≡ older_revision self revision }
    {
        revision < self.revision
    }

    // Whether a Length is not that of whole entries of this kind, or of other than one for WAKE.
    #[tactic(auto, unfolding(crate::specs::Checks::bad_entries))]
    fn has_bad_entries(self, length: usize) -> bool
        ensures { result ≡ bad_entries self length }
    {
        let entries = length.saturating_sub(Table::HEADER);
        !entries.is_multiple_of(self.entry)
            || self.signature == Self::WAKE && length != Table::WAKE_LENGTH
    }

    // 44 and 43, of a table of this kind.
    #[tactic(auto, unfolding(crate::specs::Checks::judged))]
    pub(crate) fn judge(self, header: &[u8]) -> Result<Table, Reason>
        ensures { result ≡ judged self header.now }
    {
        if self.has_older_revision(u8::at(header, 8)) {
            return Err(Reason::WrongRevision);
        }
        let length = length_of(header);
        if self.has_bad_entries(length) {
            return Err(Reason::BadEntries);
        }
        Ok(Table { kind: self, length })
    }
}
