// Configurations with full pages.

use crate::old_secrets::in_second_version;
use sso_base::NoMemory;
use std::alloc::Global;

// The last line of the provider, and the lines with which its pages are full.
const SALT: &str = "salt = \"00112233445566778899aabbccddeeff\"\n";

const PAGES: &str = "salt = \"00112233445566778899aabbccddeeff\"
pages = \"full\"
title = '<script>alert(\"A & B\")</script>'
";

// The secret of the client of the party `shop`, and the same with a title of 80 bytes.
const SECRET: &str = "secret = \"shop-secret-shop-secret-shop-secret\"\n";

const TITLE: &str = "secret = \"shop-secret-shop-secret-shop-secret\"
title = '\"Käse\" & <Brot>, żółć, Ελλάδα, 日本語のお店, 🧀🧀🧀, ßß'
";

/// The configuration in the second version with full pages, and with titles of the provider and of the client of the party
/// `shop` that have markup, quotes and other characters than ASCII. The latter has 80 bytes.
pub fn with_full_pages(alloc: Global, file: &str) -> Result<String, NoMemory> {
    let full = file.replacen(alloc, SALT, PAGES, 1)?;
    let titled = full.replacen(alloc, SECRET, TITLE, 1)?;
    in_second_version(alloc, titled.as_str())
}
