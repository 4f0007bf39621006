//! What rule N0 does where no bracket is listed.
ghost use Rattle.std.specs.Prelude.{◌≡◌, ℕ, List, []};
ghost use Rattle.rd_base.specs.declared.class.Class.{Class};
ghost use Rattle.rd_base.specs.declared.line.Seq.{Seq};
ghost use Rattle.rd_brackets.specs.Sides.{n0_brackets_in};

/// Without brackets rule N0 changes nothing. The call does nothing.
pub fn no_brackets_change_nothing()
    ensures { (classes : List Class) (codes levels : List ℕ) (seq : Seq) (types : List Class) → n0_brackets_in [] classes codes levels seq types ≡ types }
{}
