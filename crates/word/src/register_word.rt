// What each register of document 001 has: a structure that is packed into a word and unpacked from one, as its layout says.
ghost use Rattle.std.specs.Prelude.{◌≡◌};
ghost use Rattle.word.specs.RegisterLayouts.{Register, pack_as, unpack_as};

pub trait RegisterWord: Sized {
    // The register's entry in specs/RegisterLayouts.antt.
    ghost layout: { Register Self };

    // The word of a structure. Of a value only the low bits count, as many as its field has; reserved bits are 0.
    fn pack(self) -> u64
        ensures { result ≡ pack_as layout self };

    // The structure of a word. Reserved bits are passed over.
    fn unpack(word: u64) -> Self
        ensures { result ≡ unpack_as layout word };
}
