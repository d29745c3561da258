// What is true of all images and refusals.
ghost use Rattle.std.specs.Prelude.{◌≡◌, ℕ, List};
ghost use Rattle.asm86_line_types.specs.Image.{Image};
ghost use Rattle.asm86.specs.Images.{HasImage, IsNoImage};
ghost use Rattle.asm86.specs.Refusals.{OneImage, OneRefusal, NotBoth, HasOffsets};
ghost use Rattle.asm86.specs.declared.fault.ImageFault.{ImageFault};

use crate::text_has_one_reading;

/// A law: lines have one image at most, one refusal at most, and not both; an image has the offsets of the text's labels.
pub fn images_exclude_refusals()
    ensures one_image { OneImage }
    ensures one_refusal { OneRefusal }
    ensures not_both { NotBoth }
    ensures offsets { HasOffsets }
{}

/// A law: the bytes of a text have one image at most, one fault at most, and not both.
pub fn texts_have_one_image()
    ensures image { (text : List ℕ) (a b : Image) → HasImage text a → HasImage text b → a ≡ b }
    ensures fault { (text : List ℕ) (a b : ImageFault) → IsNoImage text a → IsNoImage text b → a ≡ b }
    ensures apart { (text : List ℕ) (image : Image) (fault : ImageFault) → HasImage text image → IsNoImage text fault → ⊥ }
{
    text_has_one_reading();
    images_exclude_refusals();
}
