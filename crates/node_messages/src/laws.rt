//! What holds of messages, whoever makes them.

ghost use Rattle.std.specs.Prelude.{◌≡◌, ◌^◌, ◌<◌, ℕ, List, length, Some};
ghost use Rattle.data_models.specs.declared.config.Config.{Config};
ghost use Rattle.security_block.specs.declared.about.About.{About};
ghost use Rattle.security_block.specs.Signers.{IsNamed, alone};
ghost use Rattle.forwarding_header.specs.declared.header.Header.{Header};
ghost use Rattle.forwarding_header.specs.Header.{IsHeaderInRange};
ghost use Rattle.message_bodies.specs.declared.contents.Contents.{Contents};
ghost use Rattle.message_bodies.specs.Contents.{IsContentsInRange, IsContentsOf};
ghost use Rattle.node_messages.specs.declared.message.Message.TheVariants as found;
ghost use Rattle.node_messages.specs.Making.{made};
ghost use Rattle.node_messages.specs.Reading.{read};
ghost use Rattle.node_messages.specs.Signed.{words_of};

use security_block::Signer;

/// What a node makes of a header and contents is read, under each configuration that the contents
/// are of, as a whole message with that header, its length filled in, with those contents and the
/// node's certificate alone, and as signed by that node.
pub fn what_is_made_is_read_as_its_makers<G: Signer>()
    ensures { (config : Config) (g : G) (who : About) (h : Header) (c : Contents) (bytes : List ℕ)
        → let words = words_of G.certificate_of G.signature_of G.about_of G.verifies g in
        IsNamed who → who.node.0 < 2 ^ 128 → IsHeaderInRange h → IsContentsInRange c
        → IsContentsOf config c → made words who h c ≡ Some bytes
        → read config words bytes ≡ found.Whole (record h { length = length bytes }) c
        (alone (words.certificate_of who)) (Some who) }
{}

/// Equal messages are made by one node, of one header, whatever length it had, and of one value as
/// contents.
pub fn one_message<G: Signer>()
    ensures { (config : Config) (g : G) (who other : About) (h k : Header) (c d : Contents)
        (bytes : List ℕ)
        → let words = words_of G.certificate_of G.signature_of G.about_of G.verifies g in
        IsNamed who → IsNamed other → who.node.0 < 2 ^ 128 → other.node.0 < 2 ^ 128
        → IsHeaderInRange h → IsHeaderInRange k → IsContentsInRange c × IsContentsOf config c
        → IsContentsInRange d × IsContentsOf config d
        → made words who h c ≡ Some bytes → made words other k d ≡ Some bytes
        → (who ≡ other) × (record h { length = 0 } ≡ record k { length = 0 }) × (c ≡ d) }
{}
