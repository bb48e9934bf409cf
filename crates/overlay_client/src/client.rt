//! A client.

ghost use Rattle.std.specs.Prelude.{◌≡◌, ◌≤◌, ◌<◌, ◌^◌, false, IfOk, OnOk, OnErr};
ghost use Rattle.security_block.specs.Signers.{IsNamed};
ghost use Rattle.node_links.specs.declared.limits.TheConstants.{MAX_NUMBER};
ghost use Rattle.node_messages.specs.Signed.{words_of};
ghost use Rattle.node_model.specs.Nodes.{cause_of, silent};
ghost use Rattle.node_model.specs.Clients as model;

use data_models::Config;
use node_links::Node;
use node_model::{Command, Input, MAX_LOAD, MAX_OUTSTANDING, Outputs, Question};
use ordered_tables::NumberTable;
use reload_base::{List, NoMemory};
use security_block::{About, Signer};
use std::alloc::Global;
use std::marker::Model;
use transaction_table::Table;

/// A client: what it has as a node, its transactions, and by transaction id what each asks for.
///
/// ```text
///  told to ask ──▶ 64 are outstanding? ──yes──▶ nothing
///                         │ no
///                         ▼
///                   outstanding ──▶ its answer, from the peer that was asked, with its id, signed
///                         ▲   │     by a peer, of a body that answers the question ──▶ told, ended
///                         ├───┘ ──▶ due, after MAX_SENDS sends ──▶ told, ended
///                    any other message, and due before that: it is sent again
/// ```
///
/// It drops every request, and passes answers on as every node does.
#[derive(Debug, Drop)]
pub struct Client {
    pub(crate) node: Node,
    pub(crate) table: Table,
    pub(crate) questions: NumberTable<Question>,
}

impl Model for Client {
    ghost use Rattle.node_model.specs.Clients as model;
    ghost use Rattle.overlay_client.specs.Sound.{IsSound, client_of, client_code};

    ghost Value = { model.Client };

    ghost coded = { client_code };

    ghost view = { λ c. client_of c.node c.table c.questions };

    ghost invariant = { λ c. IsSound (client_of c.node c.table c.questions) };
}

impl Client {
    /// A client that did nothing yet, with a number of at most `MAX_NUMBER` and a user of 1 to 64
    /// bytes.
    pub fn new(
        alloc: Global,
        config: &Config,
        number: u32,
        about: &About,
    ) -> Result<Client, NoMemory>
        requires client { about.now.peer ≡ false }
        requires named { IsNamed about.now }
        requires numbered { number ≤ MAX_NUMBER }
        ensures { IfOk result (λ c. c ≡ model.new_client number about.now config.now) }
    {
        Ok(Client {
            node: Node::new(alloc, config, number, about)?,
            table: Table::new(alloc),
            questions: NumberTable::new(alloc),
        })
    }

    /// Its load: what it handled, sent and used.
    pub fn load(&self) -> u64
        ensures { result ≡ model.load self.now }
    {
        self.node.work()
    }

    /// Whether as many of its requests wait for answers as may.
    pub fn busy(&self) -> bool
        ensures { result ≡ model.is_busy self.now }
    {
        MAX_OUTSTANDING <= self.questions.len()
    }

    /// Its configuration.
    pub fn config(&self) -> &Config
        ensures { result.now ≡ self.now.node.config }
    {
        self.node.config()
    }

    /// Whom its certificate is about.
    pub fn about(&self) -> &About
        ensures { result.now ≡ self.now.node.about }
    {
        self.node.about()
    }

    /// Handles an input at a time in milliseconds. After `NoMemory` the client is as before.
    pub fn handle<G: Signer>(
        &mut self,
        alloc: Global,
        now: u64,
        input: Input<'_>,
        signer: &G,
    ) -> Result<Outputs, NoMemory>
        requires time { now < 2 ^ 62 }
        requires light { model.load self.old < MAX_LOAD }
        // What the client is afterwards.
        ensures ok { let words = words_of G.certificate_of G.signature_of G.about_of G.verifies
            signer.now
            in OnOk result (self.new
            ≡ (model.client_step words now (cause_of input.entry) self.old).node) }
        // What it puts out.
        ensures outputs { let words = words_of G.certificate_of G.signature_of G.about_of
            G.verifies signer.now
            in IfOk result (λ outputs. outputs
            ≡ (model.client_step words now (cause_of input.entry) self.old).outputs) }
        ensures err { OnErr result (self.new ≡ self.old) }
    {
        match input {
            Input::Frame { from, bytes } => self.framed(alloc, now, from, bytes, signer),
            Input::Clock => self.clocked(alloc, now),
            Input::Command(command) => self.commanded(alloc, now, command, signer),
        }
    }

    /// An input that it does nothing with.
    #[tactic(auto, using(crate::proofs::Sounds::counted_sound), unfolding(node_model::specs::Clients::idles, node_model::specs::Nodes::counted))]
    pub(crate) fn idle(&mut self, alloc: Global) -> Outputs
        requires { model.load self.old < MAX_LOAD }
        ensures node { self.new ≡ (model.idles self.old).node }
        ensures outputs { result ≡ (model.idles self.old).outputs }
    {
        self.node.count();
        Outputs {
            frames: List::new(alloc),
            notices: List::new(alloc),
        }
    }

    /// It is told to ask something; a busy one doesn't.
    #[tactic(auto, unfolding(node_model::specs::Clients::commanded))]
    fn commanded<G: Signer>(
        &mut self,
        alloc: Global,
        now: u64,
        command: Command,
        signer: &G,
    ) -> Result<Outputs, NoMemory>
        requires time { now < 2 ^ 62 }
        requires light { model.load self.old < MAX_LOAD }
        ensures ok { let words = words_of G.certificate_of G.signature_of G.about_of G.verifies
            signer.now in OnOk result (self.new
            ≡ (model.commanded words now command self.old).node) }
        ensures outputs { let words = words_of G.certificate_of G.signature_of G.about_of G.verifies
            signer.now in IfOk result (λ outputs. outputs
            ≡ (model.commanded words now command self.old).outputs) }
        ensures err { OnErr result (self.new ≡ self.old) }
    {
        if self.busy() {
            return Ok(self.idle(alloc));
        }
        match command {
            Command::Store(command) => self.store(alloc, now, command, signer),
            Command::Fetch(command) => self.fetch(alloc, now, command, signer),
        }
    }
}
