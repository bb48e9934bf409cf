ghost use Rattle.std.specs.Prelude.{IfSome};
ghost use Rattle.node_links.specs.Sendings.{IsSending};

use data_models::Config;
use forwarding_header::{Header, fits};
use node_links::{Links, Node, Sending, payload_in};
use node_messages::header_len;
use node_model::MAX_LOAD;
use reload_base::{Bytes, List, NoMemory};
use reload_ids::NodeId;
use security_block::About;
use std::alloc::Global;
use std::test::Fail;
use wire_core::MAX_MESSAGE;

#[test]
fn acks_of_repeats_and_late_payloads(rt: HostRuntime) -> Result<(), Fail> {
    let mut links = Links::new(rt.alloc());
    let heard: [(u32, u32); 6] = [
        (1, 0),
        (2, 0b10),
        (4, 0b1100),
        (3, 0b110),
        (4, 0b1110),
        (35, 0x8000_0000),
    ];
    for (n, want) in heard {
        assert_eq!(rt; links.mask(NodeId(7), n), want, "payload {n}");
        links.note(NodeId(7), n, None)?;
    }
    assert_eq!(rt; links.mask(NodeId(8), 4), 0);
    Ok(())
}

#[test]
fn sequences_of_each_node(rt: HostRuntime) -> Result<(), Fail> {
    let mut links = Links::new(rt.alloc());
    let sent: [(u128, u32); 5] = [(7, 1), (7, 2), (8, 1), (7, 3), (8, 2)];
    for (to, want) in sent {
        assert_eq!(rt; links.next_sequence(NodeId(to)), want, "to {to}");
        links.note_sent(NodeId(to))?;
    }
    links.note(NodeId(8), 9, Some(NodeId(7)))?;
    assert_eq!(rt; links.next_sequence(NodeId(7)), 5);
    assert_eq!(rt; links.next_sequence(NodeId(8)), 3);
    Ok(())
}

fn node(alloc: Global) -> Result<Node, NoMemory> {
    let config = Config {
        name: Bytes::from_slice(alloc, b"overlay.example")?,
        sequence: 5,
        replicas: 0,
        kinds: List::new(alloc),
    };
    let about = About {
        peer: true,
        node: NodeId(9),
        user: Bytes::from_slice(alloc, b"alice")?,
    };
    Node::new(alloc, &config, 4, &about)
}

fn header(alloc: Global) -> Header {
    Header {
        overlay: 0x0102_0304,
        sequence: 5,
        ttl: 99,
        length: 0,
        id: 0x4_0000_0001,
        max_response: 0,
        via: List::new(alloc),
        dest: List::new(alloc),
        options: List::new(alloc),
    }
}

#[tactic(auto, using(node_messages::proofs::Wholes::whole_lengths))]
fn passed_on(header: Header, behind: &[u8]) -> Option<Sending<'_>>
    ensures { IfSome result IsSending }
{
    let len = header_len(&header).saturating_add(behind.len() as u64);
    if !fits(&header) || len > u64::from(MAX_MESSAGE) {
        return None;
    }
    let to = NodeId(8);
    Some(Sending::Onward { to, header, behind })
}

/// The ack of payload 6, the first that is heard.
const ACK: [u8; 9] = [0x81, 0, 0, 0, 6, 0, 0, 0, 0];

/// Payload 1, with a message of 41 bytes.
const PASSED_ON: [u8; 49] = [
    0x80, 0, 0, 0, 1, 0, 0, 41, 0xd2, 0x45, 0x4c, 0x4f, 1, 2, 3, 4, 0, 5, 0x0a, 99, 0xc0, 0, 0, 0,
    0, 0, 0, 41, 0, 0, 0, 4, 0, 0, 0, 1, 0, 0, 0, 0, 0, 0, 0, 0, 0, 0, 0, 1, 2,
];

fn is_frame(frame: Option<&(NodeId, Bytes)>, to: u128, bytes: &[u8]) -> bool {
    match frame {
        Some(frame) => frame.0 == NodeId(to) && frame.1.as_slice() == bytes,
        None => false,
    }
}

#[test]
fn a_message_is_passed_on_byte_by_byte(rt: HostRuntime) -> Result<(), Fail> {
    let mut node = node(rt.alloc())?;
    if node.work() >= MAX_LOAD {
        return Err(Fail::from("a busy node"));
    }
    let sending = passed_on(header(rt.alloc()), &[0, 1, 2]);
    assert!(rt; sending.is_some());
    let frames = node.hear(rt.alloc(), NodeId(7), 6, sending)?;
    assert_eq!(rt; frames.len(), 2);
    assert!(rt; is_frame(frames.get(0), 7, &ACK));
    assert!(rt; is_frame(frames.get(1), 8, &PASSED_ON));
    assert_eq!(rt; payload_in(&ACK), None);
    assert!(rt; payload_in(&PASSED_ON).is_some());
    assert_eq!(rt; node.work(), 3);
    Ok(())
}
