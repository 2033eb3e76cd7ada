//! The law that ties writing and reading.

ghost use Rattle.std.specs.Prelude.{◌<◌, ◌^◌, length, FitsSigned, IfSome};
ghost use Rattle.std.specs.Int.{w8, w16, w32, w64};
ghost use Rattle.kbytes.specs.Field.{Int8, Int16, Int32, Uint32, Int64, String, NullableString, Records, Array, Varint, Varlong};
ghost use Rattle.kbytes.specs.Reading.{integer_at, unsigned_at, string_at, sized_at, array_at, varint_at, varlong_at};
ghost use Rattle.kbytes.specs.Again.{ReadsAgain};

/// What is written is read again, whatever follows it: so no field's spelling begins another's of its kind. It does nothing.
pub fn reads_again()
    ensures int8 { ReadsAgain (integer_at w8) Int8 (FitsSigned w8) }
    ensures int16 { ReadsAgain (integer_at w16) Int16 (FitsSigned w16) }
    ensures int32 { ReadsAgain (integer_at w32) Int32 (FitsSigned w32) }
    ensures uint32 { ReadsAgain (unsigned_at w32) Uint32 (λ n. n < 2 ^ 32) }
    ensures int64 { ReadsAgain (integer_at w64) Int64 (FitsSigned w64) }
    ensures string { ReadsAgain string_at String (λ bytes. length bytes < 2 ^ 15) }
    ensures nullable_string { ReadsAgain (sized_at w16) NullableString (λ value. IfSome value (λ bytes. length bytes < 2 ^ 15)) }
    ensures records { ReadsAgain (sized_at w32) Records (λ value. IfSome value (λ bytes. length bytes < 2 ^ 31)) }
    ensures array { ReadsAgain array_at Array (λ value. IfSome value (λ count. count < 2 ^ 31)) }
    ensures varint { ReadsAgain varint_at Varint (FitsSigned w32) }
    ensures varlong { ReadsAgain varlong_at Varlong (FitsSigned w64) }
{}
