//! The messages that a client is given.
ghost use Rattle.std.specs.Prelude.{◌≡◌};
ghost use Rattle.sq_calls.specs.ReceivedValue.{AreReceived};

use crate::calls::AskedAttributes;
use sq_base::ids::HomeId;
use sq_base::row::Row;
use sq_model::rows::Rows;
use std::marker::Model;

/// The messages that a home gave, as they stand in it, and which of their attributes are shown. Each was received.
#[derive(Drop)]
pub struct ReceivedMessages {
    attributes: AskedAttributes,
    home: HomeId,
    rows: Rows,
}

impl Model for ReceivedMessages {
    ghost use Rattle.sq_calls.specs.ReceivedValue.{ReceivedValue, AreReceived};

    ghost Value = { ReceivedValue };

    ghost view = { λ g. record { attributes = g.attributes; home = g.home; rows = g.rows } };

    ghost invariant = { λ g. AreReceived g.rows };
}

impl ReceivedMessages {
    /// These rows of a home; each was received.
    pub fn new(attributes: AskedAttributes, home: HomeId, rows: Rows) -> ReceivedMessages
        requires { AreReceived rows }
        ensures { result ≡ record { attributes = attributes; home = home; rows = rows } }
    {
        ReceivedMessages {
            attributes,
            home,
            rows,
        }
    }

    /// Which of their attributes are shown.
    pub fn attributes(&self) -> &AskedAttributes
        ensures { result.now ≡ self.now.attributes }
    {
        &self.attributes
    }

    /// The home that gave them.
    pub fn home(&self) -> &HomeId
        ensures { result.now ≡ self.now.home }
    {
        &self.home
    }

    /// The rows, as they stand in their home.
    pub fn rows(&self) -> &[Row]
        ensures rows { result.now ≡ self.now.rows }
        ensures received { AreReceived result.now }
    {
        self.rows.as_slice()
    }
}
