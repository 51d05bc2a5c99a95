ghost use Rattle.std.specs.Prelude.{◌≡◌};
ghost use Rattle.gpu_store.specs.Images.{HasItsTexels};

use gpu_store::Op;
use std::marker::Model;

/// An operation that was done. An upload has as many texels as its rectangle.
#[derive(Drop)]
pub struct Drawn {
    op: Op,
}

impl Model for Drawn {
    ghost use Rattle.gpu_store.specs.Images.{HasItsTexels};
    ghost use Rattle.gpu_store.specs.declared.op.Op.{Op};

    ghost Value = { Op };

    ghost view = { λ drawn. drawn.op };

    ghost invariant = { λ drawn. HasItsTexels drawn.op };
}

impl Drawn {
    /// The operation, as what was done.
    pub fn of(op: Op) -> Drawn
        requires { HasItsTexels op }
        ensures { result ≡ op }
    {
        Drawn { op }
    }

    /// The operation.
    pub fn op(&self) -> &Op
        ensures op { result.now ≡ self.now }
        ensures whole { HasItsTexels result.now }
    {
        &self.op
    }
}
