//! The methods that the options of a member speak of.
ghost use Rattle.std.specs.Prelude.{◌≡◌};
ghost use Rattle.exchange.specs.Requests.{is_get as is_get_of, is_head as is_head_of, method_of as kind_of};

use forwarding::MethodKind;
use http_front::Head;

fn is_get(head: &Head) -> bool
    ensures { result ≡ is_get_of head.now }
{
    head.method.as_slice() == b"GET".as_slice()
}

pub(crate) fn is_head(head: &Head) -> bool
    ensures { result ≡ is_head_of head.now }
{
    head.method.as_slice() == b"HEAD".as_slice()
}

pub(crate) fn method_of(head: &Head) -> MethodKind
    ensures { result ≡ kind_of head.now }
{
    if is_head(head) {
        MethodKind::Head
    } else if is_get(head) {
        MethodKind::Get
    } else {
        MethodKind::Other
    }
}
