// The name of a test. Its methods stand in another file, since they cite definitions that name it.
ghost use Rattle.std.specs.Prelude.{◌≡◌, ◌≤◌, true};
ghost use Rattle.march.specs.Letters.{is_name};
ghost use Rattle.march.specs.Lists.{listed};

use crate::few::Few;

// 1 to 16 small letters and digits.
#[derive(Clone, Copy)]
pub struct Name {
    pub(crate) letters: Few<u8, 16>,
    ghost sixteen_at_most: { letters.count ≤ 16 },
    ghost allowed: { is_name (listed letters) ≡ true },
}
