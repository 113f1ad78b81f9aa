//! What inter macroblocks are predicted from (8.4.2).

ghost use Rattle.std.specs.Prelude.{◌≡◌, length, true};
ghost use Rattle.std.proofs.Props.{props};
ghost use Rattle.avc_picture_core.specs.Inter.{AreUsableAt, IsUsableAt, have_pictures};
ghost use Rattle.avc_picture_core.specs.References.{AreUsable};

use crate::inter::ReferencePicture;
use crate::places::{MbPlace, PictureSize};
use avc_neigh::Motion;
use avc_types::Mv;

/// The pictures that reference indices name, and the size that all have.
#[derive(Clone, Copy)]
pub(crate) struct References<'a, const PAD: usize> {
    pub size: PictureSize,

    pub pictures: &'a [Option<ReferencePicture<'a, PAD>>],

    ghost usable: { AreUsable size.width size.height pictures.now } by { Prim.hlevel props },
}

/// What the parts of a macroblock are predicted from, each block of which has a picture.
#[derive(Clone, Copy)]
pub(crate) struct InterSources<'r, 'a, const PAD: usize> {
    pub references: &'r [Option<ReferencePicture<'a, PAD>>],

    pub place: MbPlace,

    pub motion: &'r [Motion; 16],

    ghost usable: { AreUsableAt place.column place.row references.now } by { Prim.hlevel props },
    ghost sixteen: { length motion.now ≡ 16 },
    ghost pictures: { have_pictures references.now motion.now ≡ true },
}

/// A reference picture and the vector by which the macroblock at this place, or a part of it, is
/// predicted from it.
#[derive(Clone, Copy)]
pub(crate) struct MovedPicture<'r, 'a, const PAD: usize> {
    pub picture: &'r ReferencePicture<'a, PAD>,

    pub mv: Mv,

    pub place: MbPlace,

    ghost usable: { IsUsableAt place.column place.row picture.now } by { Prim.hlevel props },
}
