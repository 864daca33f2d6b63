// The numbers to check by for the notice ring, posts and takes, and every refusal of theirs: a part of the program `vectors`.
#![tactic(auto)]

use notice::{Positions, Taken};
use report::{Bytes, Lossy, Refused};
use std::io;

// A ring of that many bytes, and where its notices stand.
#[derive(Drop)]
struct Queue<const SIZE: usize> {
    ring: [u8; SIZE],
    at: Positions,
}

impl<const SIZE: usize> Queue<SIZE> {
    // A ring of zeros.
    fn new(read: usize, write: usize) -> Self {
        Queue {
            ring: [0; SIZE],
            at: Positions { read, write },
        }
    }

    fn post(&mut self, rt: &impl Print, what: &str, id: u32, body: &[u8]) -> io::Result<()> {
        print!(rt; "  post, {what}: ")?;
        match notice::post(&mut self.ring, self.at, id, body) {
            Ok(after) => {
                self.at = after;
                print!(rt; "done")?;
            }
            Err(reason) => print!(rt; "{}", Refused(reason.number()))?,
        }
        self.print_positions(rt)
    }

    fn take(&mut self, rt: &impl Print, what: &str, out: &mut [u8]) -> io::Result<()> {
        print!(rt; "  take, {what}: ")?;
        match notice::take(&self.ring, self.at, out) {
            Ok(taken) => {
                let Taken {
                    id,
                    length,
                    positions,
                } = taken;
                self.at = positions;
                print!(rt; "notice {id}, data{}", Bytes(le::head(out, length)))?;
            }
            Err(reason) => print!(rt; "{}", Refused(reason.number()))?,
        }
        self.print_positions(rt)
    }

    fn print_positions(&self, rt: &impl Print) -> io::Result<()> {
        let Positions { read, write } = self.at;
        println!(rt; "; read {read}, write {write}")
    }
}

// The largest notice that fits.
fn run_full(rt: &impl Print, queue: &mut Queue<16>) -> io::Result<()> {
    queue.post(rt, "notice 7, 8 bytes", 7, &[1, 2, 3, 4, 5, 6, 7, 8])?;
    queue.post(rt, "notice 7, 7 bytes", 7, &[1, 2, 3, 4, 5, 6, 7])?;
    queue.take(rt, "output of 6", &mut [0; 6])?;
    queue.take(rt, "output of 8", &mut [0; 8])?;
    queue.take(rt, "output of 8", &mut [0; 8])
}

// A notice that runs past the ring's last byte.
fn run_round(rt: &impl Print, queue: &mut Queue<16>) -> io::Result<()> {
    queue.post(rt, "notice 8, 2 bytes", 8, &[1, 2])?;
    println!(rt; "  the ring:{}", Bytes(&queue.ring))?;
    queue.take(rt, "output of 8", &mut [0; 8])
}

// Data that is too long, and positions and a ring that no queue comes to.
fn run_refusals(rt: &impl Print, queue: &mut Queue<16>) -> io::Result<()> {
    let long = [0; 1025];
    queue.post(rt, "notice 9, 1025 bytes", 9, &long)?;
    let mut waiting: Queue<16> = Queue::new(9, 0);
    waiting.take(rt, "7 bytes wait", &mut [0; 8])?;
    let mut past: Queue<16> = Queue::new(16, 0);
    past.post(rt, "position 16", 9, &long)?;
    let mut odd: Queue<12> = Queue::new(0, 0);
    odd.take(rt, "a ring of 12", &mut [0; 8])
}

fn run_all(rt: &impl Print) -> io::Result<()> {
    println!(rt; "Notices in a ring of 16 bytes, empty at 0")?;
    let mut queue: Queue<16> = Queue::new(0, 0);
    run_full(rt, &mut queue)?;
    run_round(rt, &mut queue)?;
    run_refusals(rt, &mut queue)
}

// A write that fails is passed over, and the next is tried. Never inlined, so that the parts don't add up on `main`'s stack.
#[inline(never)]
pub fn run(rt: &impl Print) {
    let _ = run_all(&Lossy(rt));
}
