// A walk over the places of the sheet that hold something.

ghost use Rattle.std.specs.Prelude.{◌≤◌, length};
ghost use Rattle.sizes.specs.Sizes.{place_count};

// The places of a sheet that hold something, each with its word, rising: most places hold nothing, and are passed over.
#[derive(Clone, Copy)]
pub struct Written<'a> {
    sheet: &'a [u16],
    from: usize,
    ghost long: { (from ≤ place_count) × (place_count ≤ length sheet.now) },
}

impl<'a> Written<'a> {
    ghost use Rattle.std.specs.Prelude.{◌≡◌, ◌<◌};
    ghost use Rattle.std.specs.List.{All};
    ghost use Rattle.std.specs.Iterator.{YieldsFirst};
    ghost use Rattle.std.specs.Iterator.Runs.{YieldsInOrder};
    ghost use Rattle.sheet.specs.Blank.{written_from, written_rest};

    // From the first place on.
    #[tactic(auto, using(crate::proofs::Blank::written_few, crate::proofs::Blank::written_all), unfolding(crate::specs::Blank::written_rest))]
    pub fn new(sheet: &'a [u16]) -> Self
        requires { place_count ≤ length sheet.now }
        ensures rest { written_rest result ≡ written_from sheet.now 0 }
        ensures few { length (written_rest result) ≤ place_count }
        ensures below { All (λ e. e.0 < place_count) (written_rest result) }
        ensures runs { YieldsInOrder (YieldsFirst written_rest) written_rest }
    {
        Written { sheet, from: 0 }
    }
}

impl Iterator for Written<'_> {
    ghost use Rattle.std.specs.Iterator.{YieldsFirst, item_count};
    ghost use Rattle.sheet.specs.Blank.{written_rest};

    type Item = (usize, u16);

    ghost next_gives = { YieldsFirst written_rest };

    ghost remaining = { item_count written_rest };

    // Always inlined: where it is called, its answer goes through memory.
    #[inline(always)]
    fn next(&mut self) -> Option<(usize, u16)> {
        let place = crate::next_written(self.sheet, self.from)?;
        self.from = place + 1;
        Some((place, self.sheet[place]))
    }
}
