//! The options of a command.

/// An option of a command. It takes one value.
#[derive(Debug, Drop)]
pub struct OptionRule {
    /// Its name, without hyphens.
    pub name: &'static str,
    /// Whether it has to stand.
    pub is_required: bool,
}
