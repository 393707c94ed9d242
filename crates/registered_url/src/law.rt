// The rule for URLs, stated as a law.

ghost use Rattle.std.specs.Prelude.{◌≡◌, ℕ, List, Some};
ghost use Rattle.url.specs.Parts.{Parts};
ghost use Rattle.registered_url.specs.declared.web_url.WebUrl.{WebUrl};
ghost use Rattle.registered_url.specs.Rule.{KeepsUrlRule, kept_parts, url_of};

/// A text is accepted as a URL if and only if it satisfies the rule, and the stored parts are those of that URL.
pub fn urls_keep_the_rule()
    ensures keeps { (t : List ℕ) (u : WebUrl) → url_of t ≡ Some u → (url : Parts) × KeepsUrlRule t url × (u ≡ kept_parts url) }
    ensures read { (t : List ℕ) (url : Parts) → KeepsUrlRule t url → url_of t ≡ Some (kept_parts url) }
{}
