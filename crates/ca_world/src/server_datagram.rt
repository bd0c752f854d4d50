//! A datagram comes to a server. Its answers go nowhere here: what comes to a client is an event of
//! its own, whoever sent it.
ghost use Rattle.ca_model.specs.Events as event;
ghost use Rattle.ca_world_data.specs.Does.{Does};

use crate::world::World;
use ca_client_core::Address;
use ca_text::Refusal;

impl World {
    /// A datagram from this address comes to a server, which answers it and is as it was.
    pub fn server_datagram(
        &mut self,
        server: usize,
        from: Address,
        bytes: &[u8],
    ) -> Result<(), Refusal>
        ensures { Does self.old (event.ServerDatagram server from bytes.now) result self.new }
    {
        let _from = from;
        if server >= self.servers.len() {
            return Err(Refusal::BadEvent);
        }
        match self.servers[server].core.datagram(bytes) {
            Ok(_answers) => {}
            Err(refusal) => return Err(refusal),
        }
        Ok(())
    }
}
