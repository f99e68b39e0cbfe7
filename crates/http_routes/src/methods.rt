//! Sets of methods.
ghost use Rattle.std.specs.Prelude.{◌≡◌};
ghost use Rattle.http_routes.specs.Table.{allow_text, has_method, method_list};

use http_wire::MethodKind;

/// The methods that a route has, by their names.
#[derive(Clone, Copy, Debug, PartialEq, Eq)]
pub enum Methods {
    GetHead,
    GetHeadPost,
    GetHeadPut,
    GetHeadPutDelete,
    GetHeadPostDelete,
    Post,
}

impl Methods {
    /// Whether the method is one of these.
    pub fn has(self, method: MethodKind) -> bool
        ensures { result ≡ has_method (method_list self) method }
    {
        match self {
            Methods::GetHead => matches!(method, MethodKind::Get | MethodKind::Head),
            Methods::GetHeadPost => {
                matches!(
                    method,
                    MethodKind::Get | MethodKind::Head | MethodKind::Post
                )
            }
            Methods::GetHeadPut => {
                matches!(method, MethodKind::Get | MethodKind::Head | MethodKind::Put)
            }
            Methods::GetHeadPutDelete => matches!(
                method,
                MethodKind::Get | MethodKind::Head | MethodKind::Put | MethodKind::Delete
            ),
            Methods::GetHeadPostDelete => matches!(
                method,
                MethodKind::Get | MethodKind::Head | MethodKind::Post | MethodKind::Delete
            ),
            Methods::Post => matches!(method, MethodKind::Post),
        }
    }

    /// The value of the field `Allow` (RFC 9110, section 10.2.1).
    pub fn allow(self) -> &'static str
        ensures { result.now ≡ allow_text (method_list self) }
    {
        match self {
            Methods::GetHead => "GET, HEAD",
            Methods::GetHeadPost => "GET, HEAD, POST",
            Methods::GetHeadPut => "GET, HEAD, PUT",
            Methods::GetHeadPutDelete => "GET, HEAD, PUT, DELETE",
            Methods::GetHeadPostDelete => "GET, HEAD, POST, DELETE",
            Methods::Post => "POST",
        }
    }
}
