// The act of the damaged requests: every honest board refuses them.
use crate::play::{Play, REQUEST};
use crate::script::write;
use crate::tools::front;
use digest::Digest;
use seal::Seal;
use sealed_request::Unsealed;

const CAMERA: &[u8] = b"camera on";

impl<D: Digest + Copy, L: Seal + Copy> Play<'_, D, L> {
    // Client 6's request to write item 8, under a number.
    fn put_request(&self, sequence: u32, out: &mut [u8]) -> anyhow::Result<usize> {
        let reads = self.read(&[8])?;
        let writes = [write(8, CAMERA)];
        let plain = Unsealed {
            client: 6,
            sequence,
            reads: reads.as_slice(),
            writes: &writes,
        };
        self.write(plain, out)
    }

    // Sends a frame as it stands.
    fn send_frame(&mut self, frame: &[u8]) -> anyhow::Result<()> {
        let posted = self.post(frame, &[write(8, CAMERA)])?;
        self.say_posted(&posted)
    }

    // A byte that changed on the way, and a number that is not open.
    pub fn changed_or_not_open(&mut self) -> anyhow::Result<()> {
        let mut frame = [0; REQUEST];
        println!(self.rt;
            "6. Client 6 writes item 8; the value's last byte is changed on the way."
        )?;
        let n = self.put_request(1, &mut frame)?;
        if let Some(byte) = frame.get_mut(n.saturating_sub(17)) {
            *byte ^= 1;
        }
        self.send_frame(front(&frame, n))?;
        println!(self.rt; "   Client 6 sends it under number 9, which is not open.")?;
        let n = self.put_request(9, &mut frame)?;
        self.send_frame(front(&frame, n))
    }

    // A number is used once.
    pub fn used_twice(&mut self) -> anyhow::Result<()> {
        let mut frame = [0; REQUEST];
        println!(self.rt; "   Client 6 sends it whole, under number 1, which is open.")?;
        let n = self.put_request(1, &mut frame)?;
        self.send_frame(front(&frame, n))?;
        println!(self.rt; "   The same request comes again.")?;
        self.send_frame(front(&frame, n))
    }
}
