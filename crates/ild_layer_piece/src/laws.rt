//! Laws of what is answered of a piece.
ghost use Rattle.ild_layer_piece.specs.Answers.{AnswersAreOne};

use ild_schema::accepted_are_legible;
use ild_typed::{layer_or_why, layers_tell};

/// A piece is a layer of a type or is refused, and not both, and it is one layer.
pub fn answers_are_one()
    ensures { AnswersAreOne }
{
    accepted_are_legible();
    layer_or_why();
    layers_tell();
}
