// The identifiers of the registries.
ghost use Rattle.std.specs.Prelude.{◌≡◌};
ghost use Rattle.component.specs.Registries.{registry_bytes, registry_named};

use parts::key::Registry;

const REGISTRIES: [Registry; 4] = [
    Registry::Tcg,
    Registry::Dmtf,
    Registry::Pcie,
    Registry::Storage,
];

// The content of a registry's identifier.
fn identifier_of(registry: Registry) -> [u8; 6]
    ensures { result ≡ registry_bytes registry }
{
    match registry {
        Registry::Tcg => [0x67, 0x81, 0x05, 0x12, 0x03, 0x01],
        Registry::Dmtf => [0x67, 0x81, 0x05, 0x12, 0x03, 0x03],
        Registry::Pcie => [0x67, 0x81, 0x05, 0x12, 0x03, 0x04],
        Registry::Storage => [0x67, 0x81, 0x05, 0x12, 0x03, 0x05],
    }
}

// The registry with an identifier, or none.
pub fn registry_named(name: &[u8]) -> Option<Registry>
    ensures { result ≡ registry_named name.now }
{
    REGISTRIES
        .iter()
        .find(|registry| name == identifier_of(**registry).as_slice())
        .copied()
}
