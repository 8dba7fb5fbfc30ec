// Whether two of some UIDs are the same.
ghost use Rattle.std.specs.Prelude.{◌≡◌, leb};
ghost use Rattle.inventory.specs.Endings.{count};
ghost use Rattle.inventory.specs.Numbers.{repeated};

// Whether u is one of the UIDs. (A plain loop: the library's `contains` and `any` take a third more time, and each walk seeks every UID so.)
fn is_among(us: &[u64], u: u64) -> bool
    ensures { result ≡ leb 1 (count u us.now) }
{
    for i in 0..us.len() {
        if us[i] == u {
            return true;
        }
    }
    false
}

pub fn has_twins(us: &[u64]) -> bool
    ensures { result ≡ repeated us.now }
{
    for (i, u) in us.iter().enumerate() {
        if is_among(&us[i + 1..], *u) {
            return true;
        }
    }
    false
}
