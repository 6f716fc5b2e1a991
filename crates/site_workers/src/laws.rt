//! A law of the site's definition, in words of its own.
ghost use Rattle.std.specs.Prelude.{◌≡◌, ℕ, List};
ghost use Rattle.site_config.specs.declared.error.PropsRefusal.{PropsRefusal};
ghost use Rattle.site_config.specs.declared.config.Config.{Config};
ghost use Rattle.site_workers.specs.Site.{IsConfig, IsRefusedText};

/// A workers.properties has one answer: it means one configuration, or it is refused for one cause at one line, and
/// never both.
pub fn a_text_has_one_answer()
    ensures configuration { (text : List ℕ) (a b : Config) → IsConfig text a → IsConfig text b → a ≡ b }
    ensures refusal { (text : List ℕ) (r s : PropsRefusal) → IsRefusedText text r → IsRefusedText text s → r ≡ s }
    ensures never_both { (text : List ℕ) (c : Config) (r : PropsRefusal) → IsConfig text c → IsRefusedText text r → ⊥ }
{}
