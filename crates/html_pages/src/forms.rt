// Forms, alerts and lines in a page.

ghost use Rattle.std.specs.Prelude.{◌≡◌, ◌++◌, OnOk};
ghost use Rattle.html_pages.specs.Forms as spec;

use crate::page::Page;
use sso_base::NoMemory;

impl Page {
    /// Adds the beginning of a form that is posted to this path below a prefix.
    pub fn push_form(&mut self, prefix: &str, path: &str) -> Result<(), NoMemory>
        ensures { OnOk result (self.new ≡ self.old ++ spec.form (prefix.now ++ path.now)) }
    {
        self.push("<form method=\"post\" action=\"")?;
        self.push(prefix)?;
        self.push(path)?;
        self.push("\">\n")
    }

    /// Adds a field of a form that users do not see.
    pub fn push_hidden(&mut self, name: &str, value: &str) -> Result<(), NoMemory>
        ensures { OnOk result (self.new ≡ self.old ++ spec.hidden name.now value.now) }
    {
        self.push("<input type=\"hidden\" name=\"")?;
        self.push(name)?;
        self.push("\" value=\"")?;
        self.push(value)?;
        self.push("\">\n")
    }

    /// Adds a text that screen readers read at once.
    pub fn push_alert(&mut self, text: &str) -> Result<(), NoMemory>
        ensures { OnOk result (self.new ≡ self.old ++ spec.alert text.now) }
    {
        self.push("<p role=\"alert\">")?;
        self.push_text(text)?;
        self.push("</p>\n")
    }

    /// Adds the line of a plain page, for those who run the site.
    pub fn push_line(&mut self, line: &str) -> Result<(), NoMemory>
        ensures { OnOk result (self.new ≡ self.old ++ spec.small_line line.now) }
    {
        self.push("<p><small>")?;
        self.push_text(line)?;
        self.push("</small></p>\n")
    }
}
