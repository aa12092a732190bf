// The C face: each function hands its arguments to the room that has the work. What C must promise is said in pod.h.
#![tactic(auto)]

ghost use Rattle.power.specs.Power.{PowersUp, SetsTimes};
ghost use Rattle.power.specs.Told.{TellsStatus, TellsMarks};
ghost use Rattle.step.specs.Step.{Steps};
ghost use Rattle.inplace.specs.Clocked.{StepsInPlace};
ghost use Rattle.settle.specs.Settle.{Settles};
ghost use Rattle.stream.specs.Run.{Runs};
ghost use Rattle.sheet.specs.Sheet.{ReadsNumbers, WritesSheet};
ghost use Rattle.view.specs.Shown.{ShowsPiece};

use inplace::Clocked;
use power::Powered;
use record::Device;
use settle::Settled;
use sheet::Sheet;
use step::Stepped;
use stream::Report;
use view::Piece;

#[unsafe(no_mangle)]
pub extern "C" fn pod_power_up(
    part: u32,
    straps: u32,
    program: u32,
    slice: u32,
    pause: u32,
) -> Powered
    ensures { PowersUp part straps program slice pause result }
{
    power::power_up(part, straps, program, slice, pause)
}

#[unsafe(no_mangle)]
pub extern "C" fn pod_set_times(device: Device, program: u32, slice: u32, pause: u32) -> Powered
    ensures { SetsTimes device program slice pause result }
{
    power::set_times(device, program, slice, pause)
}

#[unsafe(no_mangle)]
pub extern "C" fn pod_step(device: Device, image: &mut [u8], sample: u16) -> Stepped
    ensures { Steps device image.old sample result image.new }
{
    step::step(device, image, sample)
}

#[unsafe(no_mangle)]
pub extern "C" fn pod_clock(device: &mut Device, image: &mut [u8], sample: u16) -> Clocked
    ensures { StepsInPlace device.old image.old sample result device.new image.new }
{
    inplace::pod_clock(device, image, sample)
}

#[unsafe(no_mangle)]
pub extern "C" fn pod_settle(device: Device, image: &mut [u8], sample: u16, limit: u32) -> Settled
    ensures { Settles device image.old sample limit result image.new }
{
    settle::settle(device, image, sample, limit)
}

#[unsafe(no_mangle)]
pub extern "C" fn pod_run(
    image: &mut [u8],
    stream: &[u8],
    answers: &mut [u8],
    part: u32,
    straps: u32,
    program: u32,
    slice: u32,
    pause: u32,
) -> Report
    ensures { Runs image.old stream.now answers.old part straps program slice pause result
        image.new answers.new }
{
    stream::run(image, stream, answers, part, straps, program, slice, pause)
}

#[unsafe(no_mangle)]
pub extern "C" fn pod_sheet_read(sheet: &[u8]) -> Sheet
    ensures { ReadsNumbers sheet.now result }
{
    sheet::read_numbers(sheet)
}

#[unsafe(no_mangle)]
pub extern "C" fn pod_sheet_write(
    buffer: &mut [u8],
    straps: u32,
    program: u32,
    slice: u32,
    pause: u32,
) -> u32
    ensures { WritesSheet buffer.old straps program slice pause result buffer.new }
{
    sheet::write(buffer, straps, program, slice, pause)
}

#[unsafe(no_mangle)]
pub extern "C" fn pod_view(device: Device, image: &[u8], page: &[u8], block: u32) -> Piece
    ensures { ShowsPiece device image.now page.now block result }
{
    view::piece_shown(device, image, page, block)
}

#[unsafe(no_mangle)]
pub extern "C" fn pod_status(device: Device) -> u32
    ensures { TellsStatus device result }
{
    power::status_told(device)
}

#[unsafe(no_mangle)]
pub extern "C" fn pod_marks(device: Device) -> u32
    ensures { TellsMarks device result }
{
    power::marks_told(device)
}
