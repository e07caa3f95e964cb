// Document 02, W13, for a caller in C, as grelpicado.h declares it: a sender and a receiver of ISO 15765-2. They stand
// on nothing of the manager.
ghost use Rattle.std.specs.Prelude.{◌≡◌};
ghost use Rattle.can_panel.specs.CanPanel.{with_room, start_crosses, flow_crosses, next_crosses, take_crosses};

use can_panel::{
    PanelCanFrame, PanelFlowed, PanelNext, PanelReceiver, PanelSender, PanelStarted, PanelTaken,
};

// "Up to 7 bytes go in a single frame (`0N`); 8 to 4,095 in a first frame (`1L LL` and 6 bytes)"
#[unsafe(no_mangle)]
pub extern "C" fn grelpicado_can_start(message: &[u8]) -> PanelStarted
    ensures { result ≡ start_crosses message.now }
{
    can_panel::start(message)
}

// "A sender takes flow control only when it is due, any other state refuses it."
#[unsafe(no_mangle)]
pub extern "C" fn grelpicado_can_flow(sender: PanelSender, frame: PanelCanFrame) -> PanelFlowed
    ensures { result ≡ flow_crosses sender frame }
{
    can_panel::flow(sender, frame)
}

// "then consecutive frames `2N`, N from 1 counting modulo 16, 7 bytes each"
#[unsafe(no_mangle)]
pub extern "C" fn grelpicado_can_next(sender: PanelSender, message: &[u8]) -> PanelNext
    ensures { result ≡ next_crosses sender message.now }
{
    can_panel::next(sender, message)
}

// "a refused frame writes nothing"
#[unsafe(no_mangle)]
pub extern "C" fn grelpicado_can_take(
    receiver: PanelReceiver,
    room: &mut [u8],
    block: u8,
    separation: u8,
    frame: PanelCanFrame,
) -> PanelTaken
    ensures { with_room result room.new ≡ take_crosses receiver room.old block separation frame }
{
    can_panel::take(receiver, room, block, separation, frame)
}
