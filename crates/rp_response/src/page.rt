// The page that posts the fragment of its location.

ghost use Rattle.std.specs.Prelude.{◌≡◌, IfOk};
ghost use Rattle.rp_response.specs.Page as spec;

use sso_base::{Blob, NoMemory};
use std::alloc::Global;

const PAGE: &str = "<!doctype html><title>Login</title><form method=\"post\"></form><script>\
     var f=document.forms[0];new URLSearchParams(location.hash.slice(1)).forEach(function(v,k){\
     var i=document.createElement(\"input\");i.type=\"hidden\";i.name=k;i.value=v;f.appendChild(i)});f.submit()</script>";

// The page, which is the same for every party.
#[tactic(auto, unfolding(crate::specs::Page::fragment_page))]
pub(crate) fn fragment_page(alloc: Global) -> Result<Blob, NoMemory>
    ensures { IfOk result (λ b. b ≡ spec.fragment_page) }
{
    Blob::new(alloc, PAGE.as_bytes())
}
