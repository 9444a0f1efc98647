//! The numbers of devices.
ghost use Rattle.std.specs.Prelude.{◌≡◌};
ghost use Rattle.system_files.specs.Device.{major_of, minor_of};

/// The two numbers of a device.
#[derive(Clone, Copy, Debug, PartialEq, Eq)]
pub struct DeviceNumbers {
    pub major: u32,
    pub minor: u32,
}

/// Returns the two numbers of a device, which Linux packs into one.
pub fn device_of(numbers: u64) -> DeviceNumbers
    ensures major { result.major ≡ major_of numbers }
    ensures minor { result.minor ≡ minor_of numbers }
{
    let major = (numbers / (1 << 44)) * (1 << 12) + numbers / (1 << 8) % (1 << 12);
    let minor = numbers / (1 << 20) % (1 << 24) * (1 << 8) + numbers % (1 << 8);
    DeviceNumbers {
        major: major as u32,
        minor: minor as u32,
    }
}
