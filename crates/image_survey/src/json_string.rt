// A text as a string of JSON.
ghost use Rattle.std.specs.Prelude.{◌≡◌, IfOk, Some};
ghost use Rattle.json.specs.Print.{quoted};

use serde_json::Value;
use std::alloc::{AllocError, Global};
use std::fmt;
use std::marker::Model;

/// A text, with the string of JSON that it is.
#[derive(Drop)]
pub(crate) struct JsonString {
    text: String,
    json: String,
}

impl Model for JsonString {
    ghost use Rattle.std.specs.Prelude.{◌≡◌, ℕ, List, string_bytes};
    ghost use Rattle.json.specs.Print.{quoted};

    ghost Value = { List ℕ };

    ghost view = { λ s. string_bytes s.text };

    ghost invariant = { λ s. string_bytes s.json ≡ quoted (string_bytes s.text) };
}

impl JsonString {
    /// This text.
    ///
    /// # Errors
    /// Want of memory alone.
    pub(crate) fn of(alloc: Global, text: &str) -> Result<JsonString, AllocError>
        ensures { IfOk result (λ string. string ≡ text.now) }
    {
        let value = Value::String(String::from_str(alloc, text)?);
        let json = value.to_string(alloc)?;
        let text = String::from_str(alloc, text)?;
        Ok(JsonString { text, json })
    }
}

impl fmt::Display for JsonString {
    ghost output = { λ s. Some (quoted s) };

    fn fmt<W: fmt::Write>(&self, f: &mut fmt::Formatter<W>) -> fmt::Result {
        let json = self.json.as_str();
        write!(f, "{json}")
    }
}
