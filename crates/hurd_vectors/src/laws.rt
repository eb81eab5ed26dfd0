//! What vectors are worth.
ghost use Rattle.std.specs.Prelude.{ℕ, List};
ghost use Rattle.std.specs.List.{All};
ghost use Rattle.hurd_vectors.specs.Lines.{IsLine};
ghost use Rattle.hurd_vectors.specs.Vectors.{vectors_of};

/// A law: each vector is a line of printable ASCII, whatever the bytes of users are.
pub fn each_vector_is_a_line()
    ensures { (text : List ℕ) → All IsLine (vectors_of text) }
{}
