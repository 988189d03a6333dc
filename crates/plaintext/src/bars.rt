// Bars that show how far up something is.
ghost use Rattle.std.specs.Prelude.{◌≡◌, replicate, IfOk, string_bytes};
ghost use Rattle.plaintext.specs.Bars.{filled as filled_of};

use std::alloc::{AllocError, Global};

const WIDTH: u32 = 20;

fn filled(level: u16, height: u16) -> u32
    ensures { result ≡ filled_of level height }
{
    if height == 0 {
        return 0;
    }
    WIDTH * u32::from(level) / u32::from(height)
}

// A `#` for each twentieth of the height that the level reaches.
pub fn bar(heap: Global, level: u16, height: u16) -> Result<String, AllocError>
    ensures { IfOk result (λ s. string_bytes s ≡ replicate (filled_of level height) 35) }
{
    // `as`: a `usize` has no `From` of a `u32`, and no value of one is lost in it
    "#".repeat(heap, filled(level, height) as usize)
}
