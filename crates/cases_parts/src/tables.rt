use crate::{inboxes, networks, outboxes, shelves, transactions};
use case_words::Words;
use ic_edge::Shelf;
use ic_in::Inbox;
use ic_network::{Network, Shown};
use ic_out::Outbox;
use ic_txn::Txn;
use std::alloc::{AllocError, Global};
use std::io;

/// One table of each kind, on which the calls are made.
#[derive(Drop)]
pub struct Tables {
    network: Network,
    inbox: Inbox,
    outbox: Outbox,
    shelf: Shelf,
    txn: Txn,
    shown: Shown,
}

impl Tables {
    /// Tables without a row.
    pub fn new(alloc: Global) -> Result<Tables, AllocError> {
        Ok(Tables {
            network: Network::new(alloc)?,
            inbox: Inbox::new(alloc),
            outbox: Outbox::new(alloc),
            shelf: Shelf::new(alloc),
            txn: Txn::new(),
            shown: Shown::new(alloc),
        })
    }

    /// Makes the call of a line, and prints what it answers.
    pub fn answer(
        &mut self,
        rt: &HostRuntime,
        what: &str,
        words: &mut Words<'_>,
    ) -> io::Result<()> {
        match what {
            "inbox" => inboxes::answer(rt, &mut self.inbox, words),
            "outbox" => outboxes::answer(rt, &mut self.outbox, words),
            "shelf" => shelves::answer(rt, &mut self.shelf, words),
            "txn" => transactions::answer(rt, &mut self.txn, words),
            "network" => networks::answer(rt, &mut self.network, words),
            "shown" => networks::answer_of_shown(rt, &mut self.shown, words),
            other => println!(rt; "nothing is called {other}"),
        }
    }
}
