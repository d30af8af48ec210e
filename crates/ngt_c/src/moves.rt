// Moves between versions.
ghost use Rattle.packed.specs.Image.{drive_in};
ghost use Rattle.ngt.specs.Moves.{MovedUp, MovedDown};

// Version 1 to version 2.
#[unsafe(no_mangle)]
pub extern "C" fn ngt_move_up(
    image: &mut [u8; 144],
    vol: &[u8],
    second: &mut [u8],
    answer: &mut [u8; 16],
) -> u32
    ensures { MovedUp (drive_in image.old) vol.now second.old
        image.old result second.new image.new answer.new }
{
    ngt::moves::ngt_move_up(image, vol, second, answer)
}

// Version 2 to version 1.
#[unsafe(no_mangle)]
pub extern "C" fn ngt_move_down(
    image: &mut [u8; 144],
    vol: &[u8],
    second: &mut [u8],
    answer: &mut [u8; 16],
) -> u32
    ensures { MovedDown (drive_in image.old) vol.now second.old
        image.old result second.new image.new answer.new }
{
    ngt::moves::ngt_move_down(image, vol, second, answer)
}
