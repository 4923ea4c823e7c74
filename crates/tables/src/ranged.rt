// Sizes that are found in range: what every step of the shadow relies on, said once.
ghost use Rattle.std.specs.Prelude.{◌≡◌, MatchOption};
ghost use Rattle.tables.specs.SizesCode.{Sized};

use crate::Sizes;

// The type stands in a file of its own, as a struct with a ghost field imports all that its file's ghost uses name.
#[derive(Clone, Copy)]
pub struct Ranged {
    pub sizes: Sizes,
    ghost sized: { Sized sizes },
}

impl Ranged {
    // The sizes, if they are in range. The pool's end is found without a sum that may wrap.
    // An Option, since out of range is no refusal of its own.
    pub fn of(sizes: Sizes) -> Option<Ranged>
        ensures { MatchOption result (¬ Sized sizes) (λ m. m.sizes ≡ sizes) }
    {
        let few = sizes.frames <= 256
            && sizes.processors <= 4
            && paging::is_between(1, 16, sizes.share);
        let last = 0x100_0000_0000;
        if few && sizes.base <= last && sizes.base + sizes.processors * sizes.share <= last {
            Some(Ranged { sizes })
        } else {
            None
        }
    }
}
