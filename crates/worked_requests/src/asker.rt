//! Who asks.

ghost use Rattle.std.specs.Prelude.{◌≤◌, length, IfOk};
ghost use Rattle.security_block.specs.declared.about.TheConstants.{MAX_USER};
ghost use Rattle.security_block.specs.Signers.{IsNamed};

use reload_base::{Bytes, NoMemory};
use reload_ids::NodeId;
use security_block::About;
use std::alloc::Global;

/// A node that asks.
#[derive(Clone, Copy, Debug, PartialEq, Eq)]
pub enum Asker {
    /// A client of the user `abc`.
    Abc,
    /// Another client of the same user.
    SecondAbc,
    /// A client of the user `test`.
    Test,
    /// A peer of the user `abc`.
    Peer,
}

impl Asker {
    /// Its Node-ID: 32 digits, of which all but the first are 0.
    pub fn node(self) -> NodeId {
        match self {
            Asker::Abc => NodeId(0x4000_0000_0000_0000_0000_0000_0000_0000),
            Asker::SecondAbc => NodeId(0x5000_0000_0000_0000_0000_0000_0000_0000),
            Asker::Test => NodeId(0x3000_0000_0000_0000_0000_0000_0000_0000),
            Asker::Peer => NodeId(0x8000_0000_0000_0000_0000_0000_0000_0000),
        }
    }

    fn user(self) -> &'static [u8]
        ensures from { 1 ≤ length result.now }
        ensures to { length result.now ≤ MAX_USER }
    {
        match self {
            Asker::Abc | Asker::SecondAbc | Asker::Peer => b"abc",
            Asker::Test => b"test",
        }
    }

    /// Whom its certificate is about.
    pub(crate) fn about(self, alloc: Global) -> Result<About, NoMemory>
        ensures { IfOk result IsNamed }
    {
        Ok(About {
            peer: self == Asker::Peer,
            node: self.node(),
            user: Bytes::from_slice(alloc, self.user())?,
        })
    }
}
