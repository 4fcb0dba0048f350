//! Laws of templates.
ghost use Rattle.format_words.specs.Grammar.{SpelledIsTemplate, TemplateIsSpelled};

/// The text of a template is read as the template, and each text that is read as a template is its text.
pub fn templates_are_spelled()
    ensures read { SpelledIsTemplate }
    ensures spelled { TemplateIsSpelled }
{}
