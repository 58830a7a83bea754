//! Lists of exchanges, seen as the list of their items.
ghost use Rattle.std.specs.Prelude.{◌≡◌, ◌<◌, length};
ghost use Rattle.mat_laws.specs.TightPaths.{row_in};

use mat_laws::Exchange;
use std::marker::Model;

/// A list of exchanges, one for each element.
#[derive(Debug, Drop)]
pub struct ExchangeList {
    items: Vec<Exchange>,
}

impl Model for ExchangeList {
    ghost use Rattle.std.specs.Prelude.{List};
    ghost use Rattle.mat_laws.specs.declared.exchange.Exchange.{Exchange};

    ghost Value = { List Exchange };

    ghost view = { λ a. a.items.items };
}

impl ExchangeList {
    /// The list of these exchanges. It takes no memory.
    pub fn new(items: Vec<Exchange>) -> ExchangeList
        ensures { result ≡ items.items }
    {
        ExchangeList { items }
    }

    /// How many there are.
    pub fn len(&self) -> usize
        ensures { result ≡ length self.now }
    {
        self.items.len()
    }

    /// The exchanges at place i.
    pub fn get(&self, i: usize) -> &Exchange
        requires { i < length self.now }
        ensures { result.now ≡ row_in self.now i }
    {
        &self.items[i]
    }
}
