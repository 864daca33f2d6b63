// UBIOS tables, in memory that is `region` from the address `base` on: the checks and the look-up by name.
ghost use Rattle.std.specs.Prelude.{◌≡◌};
ghost use Rattle.ubios.specs.Layout.{table_header};
ghost use Rattle.ubios.specs.Checks.{number_of, checked, root_checked};
ghost use Rattle.ubios.specs.Lookup.{found};
ghost use Rattle.hoursquall.specs.Answer.{told};
ghost use Rattle.hoursquall.specs.Ubios.{part_after, root_part_after, body_after};

use hoursquall::answer::tell;
use ubios::{Region, Root, Table};

// Checks the table at an address; `part` receives the place and the length of its used part.
#[unsafe(no_mangle)]
pub extern "C" fn hs_ubios_table(
    region: &[u8],
    base: u64,
    address: u64,
    part: &mut [usize; 2],
) -> u32
    ensures value { result ≡ told number_of (checked table_header region.now base address) }
    ensures part_after { part.new ≡ part_after (checked table_header region.now base address) part.old }
{
    let region = Region {
        bytes: region,
        base,
    };
    tell(Table::check(region, address), part)
}

// Checks the root table likewise; `root` also receives how many slots it has.
#[unsafe(no_mangle)]
pub extern "C" fn hs_ubios_root(
    region: &[u8],
    base: u64,
    address: u64,
    root: &mut [usize; 3],
) -> u32
    ensures value { result ≡ told number_of (root_checked region.now base address) }
    ensures root_after { root.new ≡ root_part_after (root_checked region.now base address) root.old }
{
    let region = Region {
        bytes: region,
        base,
    };
    tell(Root::check(region, address), root)
}

// Looks for the table of a name through the root at an address; `body` receives its slot, and the place and
// the length of its body.
#[unsafe(no_mangle)]
pub extern "C" fn hs_ubios_find(
    region: &[u8],
    base: u64,
    root: u64,
    name: &[u8],
    body: &mut [usize; 3],
) -> u32
    ensures value { result ≡ told number_of (found region.now base root name.now) }
    ensures body_after { body.new ≡ body_after (found region.now base root name.now) body.old }
{
    let region = Region {
        bytes: region,
        base,
    };
    tell(ubios::lookup::find(region, root, name), body)
}
