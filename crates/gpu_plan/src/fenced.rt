ghost use Rattle.std.specs.Prelude.{◌≡◌, ◌<◌, [], length, HoldsAt, IfOk, IfErr, MatchOption};
ghost use Rattle.gpu_plan.specs.Fencing.{Rise, noted_at};

use std::marker::Model;

/// What is noted of a flush that has fences: its place among the actions, and its fences. It is seen as this pair.
#[derive(Drop)]
pub(crate) struct Fenced {
    pub place: u32,
    pub pairs: Vec<(u32, u64)>,
}

impl Model for Fenced {
    ghost use Rattle.std.specs.Prelude.{ℕ, List};

    ghost Value = { ℕ × List (ℕ × ℕ) };

    ghost view = { λ noted. (noted.place, noted.pairs.items) };
}

impl Fenced {
    fn place(&self) -> u32
        ensures { result ≡ self.now.0 }
    {
        self.place
    }
}

// Where the flush at a place is among these, or where it would go.
fn search(fenced: &[Fenced], place: u32) -> Result<usize, usize>
    requires { Rise fenced.now }
    ensures within { IfOk result (λ at. at < length fenced.now) }
    ensures found { IfOk result (HoldsAt (λ noted. noted_at place fenced.now ≡ noted.1) fenced.now) }
    ensures absent { IfErr result (λ at. noted_at place fenced.now ≡ []) }
{
    fenced.binary_search_by_key(&place, |noted| noted.place())
}

/// What is noted of the flush at a place.
pub(crate) fn noted_at(fenced: &[Fenced], place: u32) -> Option<&Fenced>
    requires { Rise fenced.now }
    ensures { MatchOption result (noted_at place fenced.now ≡ [])
        (λ noted. noted_at place fenced.now ≡ noted.now.1) }
{
    match search(fenced, place) {
        Ok(at) => Some(&fenced[at]),
        Err(_) => None,
    }
}
