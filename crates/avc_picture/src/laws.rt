//! Laws of pictures: their definitions alone.

ghost use Rattle.avc_picture.specs.Laws.{PicturesComeFromTheirMacroblocks};
ghost use Rattle.avc_picture.specs.Sizes.{PicturesAreSized};

/// Whatever its slices are, a picture has the size of its sequence parameter set.
#[tactic(auto, using(crate::proofs::Slices::pictures_sized))]
pub fn pictures_are_sized()
    ensures { PicturesAreSized }
{}

/// The samples of a full picture before deblocking do not depend on the planes that its macroblocks
/// are built on.
#[tactic(auto, using(crate::proofs::Slices::built_anyhow))]
pub fn pictures_come_from_their_macroblocks()
    ensures { PicturesComeFromTheirMacroblocks }
{}
