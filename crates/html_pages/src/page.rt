// Writing a page piece by piece.

ghost use Rattle.std.specs.Prelude.{◌≡◌, ◌++◌, decimal, IfOk, OnOk};
ghost use Rattle.html_pages.specs.Escaping.{spelled, escaped};
ghost use Rattle.html_pages.specs.Documents as spec;

use sso_base::{Blob, NoMemory};
use std::alloc::Global;
use std::marker::Model;

// The style of each page, for small and large screens, light and dark.
const STYLE: &str = "*{box-sizing:border-box}\
     body{margin:0;padding:2rem 1rem;background:#f3f4f6;color:#1b1f24;\
     font:1rem/1.5 system-ui,sans-serif;color-scheme:light dark;overflow-wrap:anywhere}\
     main{max-width:24rem;margin:auto;padding:1.5rem;background:#fff;border:1px solid #c9ced6;border-radius:.7rem}\
     h1{font-size:1.5rem;line-height:1.25}\
     h1,.site{margin:0}\
     .site,small{color:#57606a}\
     p,ul,label,button{margin:1rem 0 0}\
     ul{padding-left:1.25rem}\
     label{display:block;font-weight:600}\
     input,button,.go{display:block;width:100%;padding:.6rem .7rem;border:1px solid #767f8a;\
     border-radius:.5rem;background:#fff;color:inherit;font:inherit}\
     button,.go{border-color:#0b57d0;background:#0b57d0;color:#fff;font-weight:600;text-align:center;text-decoration:none}\
     .quiet{background:none;color:#0b57d0}\
     .link{display:inline;width:auto;margin:0;padding:0;border:0;text-decoration:underline}\
     [role=alert]{padding:.6rem .7rem;border-left:.25rem solid #b3261e;background:#fbe9e7}\
     @media(prefers-color-scheme:dark){\
     body{background:#101418;color:#e6e8eb}\
     main,input{background:#1b2026}\
     main{border-color:#48515c}\
     .site,small{color:#a9b2bd}\
     button,.go{border-color:#8ab4f8;background:#8ab4f8;color:#0b1f40}\
     .quiet{background:none;color:#8ab4f8}\
     [role=alert]{border-color:#f2b8b5;background:#3b2220}\
     }";

const HEAD: &str = "<!doctype html>\n<html lang=\"en\">\n<head>\n<meta charset=\"utf-8\">\n\
     <meta name=\"viewport\" content=\"width=device-width, initial-scale=1\">\n<title>";

const CLOSING: &str = "</main></body>\n</html>\n";

#[tactic(auto, unfolding(crate::specs::Documents::style))]
fn style() -> &'static str
    ensures { result.now ≡ spec.style }
{
    STYLE
}

/// A page that is being written, seen as the bytes so far.
#[derive(Drop)]
pub struct Page {
    bytes: Vec<u8>,
}

impl Model for Page {
    ghost use Rattle.std.specs.Prelude.{List, ℕ};

    ghost Value = { List ℕ };

    ghost view = { λ p. p.bytes.items };
}

impl Page {
    /// The beginning of a page with this heading, of a site with this title. Both are texts, and are escaped.
    pub fn begin(alloc: Global, heading: &str, site: &str) -> Result<Page, NoMemory>
        ensures { IfOk result (λ p. p ≡ spec.opening heading.now site.now) }
    {
        let mut page = Page {
            bytes: Vec::new(alloc),
        };
        page.push_head(heading, site)?;
        page.push_top(heading, site)?;
        Ok(page)
    }

    /// The same for a page that a user agent leaves after this number of seconds, for a path below a prefix. Both are HTML.
    pub fn begin_until(
        alloc: Global,
        heading: &str,
        site: &str,
        seconds: u32,
        prefix: &str,
        path: &str,
    ) -> Result<Page, NoMemory>
        ensures { IfOk result (λ p. p ≡ spec.opening_until (decimal seconds) (prefix.now ++ path.now) heading.now site.now) }
    {
        let number = seconds.to_string(alloc)?;
        let mut page = Page {
            bytes: Vec::new(alloc),
        };
        page.push_head(heading, site)?;
        page.push_refresh(number.as_str(), prefix, path)?;
        page.push_top(heading, site)?;
        Ok(page)
    }

    /// Adds HTML, as it is.
    pub fn push(&mut self, markup: &str) -> Result<(), NoMemory>
        ensures { OnOk result (self.new ≡ self.old ++ markup.now) }
    {
        self.bytes.extend_from_slice(markup.as_bytes())?;
        Ok(())
    }

    fn push_byte(&mut self, byte: u8) -> Result<(), NoMemory>
        ensures { OnOk result (self.new ≡ self.old ++ spelled byte) }
    {
        match byte {
            b'&' => self.push("&amp;"),
            b'<' => self.push("&lt;"),
            b'>' => self.push("&gt;"),
            b'"' => self.push("&quot;"),
            _ => {
                self.bytes.push(byte)?;
                Ok(())
            }
        }
    }

    /// Adds a text: `&`, `<`, `>` and `"` are written as references.
    pub fn push_text(&mut self, text: &str) -> Result<(), NoMemory>
        ensures { OnOk result (self.new ≡ self.old ++ escaped text.now) }
    {
        let bytes = text.as_bytes();
        for &byte in bytes {
            self.push_byte(byte)?;
        }
        Ok(())
    }

    #[tactic(auto, unfolding(crate::specs::Documents::head_text))]
    fn push_head(&mut self, heading: &str, site: &str) -> Result<(), NoMemory>
        ensures { OnOk result (self.new ≡ self.old ++ spec.head_text (escaped heading.now) (escaped site.now)) }
    {
        self.push(HEAD)?;
        self.push_text(heading)?;
        self.push(" - ")?;
        self.push_text(site)?;
        self.push("</title>\n<style>")?;
        self.push(style())?;
        self.push("</style>\n")
    }

    fn push_refresh_url(&mut self, prefix: &str, path: &str) -> Result<(), NoMemory>
        ensures { OnOk result (self.new ≡ self.old ++ spec.refresh_url (prefix.now ++ path.now)) }
    {
        self.push(";url=")?;
        self.push(prefix)?;
        self.push(path)?;
        self.push("\">\n")
    }

    fn push_refresh(&mut self, seconds: &str, prefix: &str, path: &str) -> Result<(), NoMemory>
        ensures { OnOk result (self.new ≡ self.old ++ spec.refresh seconds.now (prefix.now ++ path.now)) }
    {
        self.push("<meta http-equiv=\"refresh\" content=\"")?;
        self.push(seconds)?;
        self.push_refresh_url(prefix, path)
    }

    #[tactic(auto, unfolding(crate::specs::Documents::top_text))]
    fn push_top(&mut self, heading: &str, site: &str) -> Result<(), NoMemory>
        ensures { OnOk result (self.new ≡ self.old ++ spec.top_text (escaped heading.now) (escaped site.now)) }
    {
        self.push("</head>\n<body>\n<main>\n<p class=\"site\">")?;
        self.push_text(site)?;
        self.push("</p>\n<h1>")?;
        self.push_text(heading)?;
        self.push("</h1>\n")
    }

    /// The page with its end.
    pub fn end(self) -> Result<Blob, NoMemory>
        ensures { IfOk result (λ b. b ≡ self ++ spec.closing) }
    {
        let mut bytes = self.bytes;
        bytes.extend_from_slice(CLOSING.as_bytes())?;
        Ok(Blob::from_vec(bytes))
    }
}
