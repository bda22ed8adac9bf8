ghost use Rattle.std.specs.Prelude.{◌≡◌, IfOk, None, OnOk, slice_index_or};
ghost use Rattle.grammar.specs.Parts.{told, parts_of, bytes};
ghost use Rattle.rows.specs.Build.{Builds};
ghost use Rattle.rows.specs.Rows.{Holds, empty_script};
ghost use Rattle.rows.specs.Tables.{ports_of, starts_of, instrs_of, nodes_of, table, blank_table, declared, with_entry, PartAdded};

use crate::entry::Entry;
use grammar::part::Part;
use grammar::words::PortKind;
use message::kind::{Message, Sign};
use passes::ranges::{BODIES, PORTS};
use std::alloc::{AllocError, Global};

// What a task does at one place of its body.
#[derive(Clone, Copy, Debug, PartialEq, Eq)]
pub enum Instr {
    // Waits for the event whose row begins at `from`.
    Sync { from: usize },
    Spawn { body: u8 },
    Emit,
    Again,
    // The place past the last instruction.
    End,
}

// A piece of an event's row. What a leaf is wrapped in stands after it, a guard's arms are parted by
// `Else`, and choices leave no trace: so an event is evaluated in one walk, with no memory of its own.
#[derive(Clone, Copy, Debug, PartialEq, Eq)]
pub enum Node<M> {
    Always(M),
    Send(u8),
    Recv(u8),
    Timeout(u32),
    Nack,
    // A wrapped event, up to its Set or Add.
    Wrap,
    Set(M),
    Add(i32),
    // A guard's first arm, up to Else, and its second, up to EndGuard.
    Guard(Sign),
    Else,
    EndGuard,
    // A with-nack's event, up to EndNack.
    WithNack(u8),
    EndNack,
    // The end of the row.
    EndSync,
}

// A script in rows.
#[derive(Drop)]
pub struct Rows<M: Drop> {
    // Of fixed size, so that a new table takes no memory.
    ports: [Option<PortKind>; PORTS],
    // Where the instructions of each body begin in the row of all.
    bodies: [Option<usize>; BODIES],
    instrs: Vec<Instr>,
    nodes: Vec<Node<M>>,
}

// Puts the value at a place that has none yet. Through `get_mut` nothing would be known of the slots
// afterwards.
fn declare<T: Drop>(slots: &mut [Option<T>], at: u8, value: T)
    ensures { slots.new ≡ declared slots.old at value }
{
    let at = usize::from(at);
    if let Some(None) = slots.get(at) {
        slots[at] = Some(value);
    }
}

// The item at a place, or what stands for all past the last.
fn item_or<T: Copy>(items: &[T], i: usize, past: T) -> T
    ensures { result ≡ slice_index_or items.now i past }
{
    items.get(i).copied().unwrap_or(past)
}

impl<M: Message> Rows<M> {
    // Rows with nothing in them.
    fn blank(heap: Global) -> Rows<M>
        ensures { table result ≡ blank_table }
    {
        Rows {
            ports: [None; PORTS],
            bodies: [None; BODIES],
            instrs: Vec::new(heap),
            nodes: Vec::new(heap),
        }
    }

    // The script of one body, which does nothing.
    pub fn empty(heap: Global) -> Rows<M>
        ensures { Holds result empty_script }
    {
        let mut rows = Rows::blank(heap);
        rows.bodies[0] = Some(0);
        rows
    }

    fn add(&mut self, entry: Entry<M>) -> Result<(), AllocError>
        ensures { OnOk result (table self.new ≡ with_entry (table self.old) entry) }
    {
        match entry {
            Entry::Port { kind, number } => declare(&mut self.ports, number, kind),
            Entry::Body { number } => declare(&mut self.bodies, number, self.instrs.len()),
            Entry::Sync => self.instrs.push(Instr::Sync {
                from: self.nodes.len(),
            })?,
            Entry::Instr(instr) => self.instrs.push(instr)?,
            Entry::Node(node) => self.nodes.push(node)?,
        }
        Ok(())
    }

    fn add_part(&mut self, part: Part<'_>) -> Result<(), AllocError>
        ensures { OnOk result (PartAdded M.Literal.literal part.entry.purpose (bytes (told part.entry)) (table self.old) (table self.new)) }
    {
        match Entry::of(part) {
            Some(entry) => self.add(entry),
            None => Ok(()),
        }
    }

    // The rows of a script, from its parts.
    pub fn build(heap: Global, parts: &[Part<'_>]) -> Result<Rows<M>, AllocError>
        ensures { IfOk result (λ t. Builds M.Literal.literal (parts_of parts.now) t) }
    {
        let mut rows = Rows::blank(heap);
        for part in parts {
            rows.add_part(*part)?;
        }
        Ok(rows)
    }

    // The kind of a port, if it is declared.
    pub fn port(&self, p: u8) -> Option<PortKind>
        ensures { result ≡ slice_index_or (ports_of self.now) p None }
    {
        item_or(&self.ports, usize::from(p), None)
    }

    // Where the instructions of a body begin, if it is declared.
    pub fn body(&self, b: u8) -> Option<usize>
        ensures { result ≡ slice_index_or (starts_of self.now) b None }
    {
        item_or(&self.bodies, usize::from(b), None)
    }

    // The instruction at a place, and past the row the end.
    pub fn instr(&self, i: usize) -> Instr
        ensures { result ≡ slice_index_or (instrs_of self.now) i Instr.End }
    {
        item_or(&self.instrs, i, Instr::End)
    }

    // The node at a place, and past the row the end.
    pub fn node(&self, i: usize) -> Node<M>
        ensures { result ≡ slice_index_or (nodes_of self.now) i Node.EndSync }
    {
        item_or(&self.nodes, i, Node::EndSync)
    }
}
