ghost use Rattle.std.specs.Prelude.{◌≡◌, ◌∷◌, [], position, MatchOption};
ghost use Rattle.std.specs.List.{slice_split};
ghost use Rattle.std.specs.Iterator.{YieldsFirstRef, item_count};
ghost use Rattle.verify_input.specs.Said.{is_space, pieces_of};
ghost use Rattle.verify_input.specs.Fronts.{IsCut};

/// The rest of a line after a piece of it: nothing, or a space and the further pieces.
#[derive(Clone, Copy)]
pub(crate) struct Pieces<'a> {
    pub(crate) rest: &'a [u8],
}

// The place of the first space.
fn space_in(text: &[u8]) -> Option<usize>
    ensures { result ≡ position is_space text.now }
{
    text.iter().position(|byte| *byte == b' ')
}

impl<'a> Pieces<'a> {
    /// The further pieces with the space before them, or nothing where there are none.
    pub(crate) fn from_space(self) -> &'a [u8]
        ensures cut { IsCut result.now }
        ensures pieces { pieces_of result.now ≡ pieces_of self.entry.rest.now }
    {
        match space_in(self.rest) {
            Some(at) => {
                let (_, rest) = self.rest.split_at(at);
                rest
            }
            None => &[],
        }
    }
}

/// What stands before the first space, and the pieces after it.
#[tactic(auto, using(crate::proofs::Cuts::cut_none))]
pub(crate) fn first_piece(text: &[u8]) -> (&[u8], Pieces<'_>)
    ensures { slice_split is_space text.now ≡ result.0.now ∷ pieces_of result.1.rest.now }
{
    match space_in(text) {
        Some(at) => {
            let (piece, rest) = text.split_at(at);
            (piece, Pieces { rest })
        }
        None => (text, Pieces { rest: &[] }),
    }
}

// What stands after the first space, cut at the next one.
#[tactic(auto, using(crate::proofs::Cuts::next_found, crate::proofs::Cuts::next_none))]
fn next_piece(text: &[u8]) -> Option<(&[u8], &[u8])>
    ensures { MatchOption result (pieces_of text.now ≡ [])
        (λ cut. pieces_of text.now ≡ cut.0.now ∷ pieces_of cut.1.now) }
{
    let at = space_in(text)?;
    let (_, behind) = text.split_at(at + 1);
    let (piece, more) = first_piece(behind);
    Some((piece, more.rest))
}

impl<'a> Iterator for Pieces<'a> {
    type Item = &'a [u8];

    ghost next_gives = { YieldsFirstRef (λ s. pieces_of s.rest.now) };

    ghost remaining = { item_count (λ s. pieces_of s.rest.now) };

    fn next(&mut self) -> Option<&'a [u8]> {
        let (piece, rest) = next_piece(self.rest)?;
        self.rest = rest;
        Some(piece)
    }
}
