//! Laws of slice headers: their definitions alone.

ghost use Rattle.avc_slice.specs.Laws.{HeadersKeepIdrRules};

/// Each header that can be read keeps to the rules of IDR pictures.
pub fn headers_keep_idr_rules()
    ensures { HeadersKeepIdrRules }
{}
