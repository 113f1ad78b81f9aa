//! What is kept of the header of the open picture's last slice.

ghost use Rattle.std.specs.Prelude.{◌≡◌};
ghost use Rattle.avc_slice.specs.Begins.{begins};

use avc_slice::{Header, PictureFields, begins_picture};
use avc_types::History;
use std::marker::Model;

/// The header of the open picture's last slice, of which only that is kept which the next one is
/// compared with. A contract sees the whole header.
#[derive(Drop)]
pub struct LastHeader {
    fields: PictureFields,
    headers: History<Header>,
}

impl Model for LastHeader {
    ghost use Rattle.avc_slice.specs.declared.header.Header.{Header as SliceHeader};
    ghost use Rattle.avc_units.specs.LastHeader.{kept, HasFields};

    ghost Value = { SliceHeader };

    ghost view = { λ l. kept l.headers.items };

    ghost invariant = { λ l. HasFields l.fields l.headers.items };
}

impl LastHeader {
    /// Of a slice with this header.
    pub fn new(header: &Header) -> LastHeader
        ensures { result ≡ header.now }
    {
        LastHeader {
            fields: header.picture_fields(),
            headers: History::new().with_newest(header),
        }
    }

    /// Whether a slice with this header begins a new picture after it (7.4.1.2.4).
    pub(crate) fn is_followed_by_picture(&self, next: &Header) -> bool
        ensures { result ≡ begins self.now next.now }
    {
        begins_picture(&self.fields, next)
    }
}
