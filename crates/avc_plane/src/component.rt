//! Colour components (6.2).

/// A colour component of a picture (6.2).
#[derive(Clone, Copy)]
pub enum Component {
    Luma,
    Cb,
    Cr,
}
