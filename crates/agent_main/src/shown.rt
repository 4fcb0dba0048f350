//! Texts as standard error shows them.
pub use agent_run::Shown;
