// What the measurements call: the check by itself, for a C program.
#![tactic(auto)]

ghost use Rattle.std.specs.Prelude.{◌≡◌};
ghost use Rattle.area.specs.Layout.{good_bytes};

use area::check::check;

#[unsafe(no_mangle)]
pub extern "C" fn probe_check(area: &[u8]) -> bool
    ensures { result ≡ good_bytes area.now }
{
    check(area)
}
