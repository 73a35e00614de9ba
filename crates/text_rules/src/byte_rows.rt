ghost use Rattle.std.specs.Prelude.{◌≡◌, ◌==◌, ◌++◌, ◌∷◌, [], Ok, Err, take, length, replicate, map, flat_map, codes};
ghost use Rattle.text_rules.specs.MalformedRows.{all_kinds, malformed, good_records, no_records};
ghost use Rattle.std.specs.List.{list_any};
ghost use Rattle.text_rules.specs.LogRecord.{record_bytes, records_of, whole_len};
ghost use Rattle.text_rules.specs.ChangedRanges.{ranges_of, put_ranges};
ghost use Rattle.text_rules.specs.StoredPage.{stored_bytes, stored_page};
ghost use Rattle.text_rules.specs.MessageBytes.{message_bytes};
ghost use Rattle.text_rules.specs.ReadMessage.{decoded};
ghost use Rattle.text_rules.specs.FieldBytes.Fault.{Short, BadKind, BadField, TooLong};
ghost use Rattle.text_rules.specs.ByteRows.{two_nodes, first_change, first_ranges, bytes_of, record_one, record_two, range, first_page, stored_one, a_revocation_message};

/// A change of a whole page is a record of format 1.
pub fn row_of_a_whole_page()
    ensures { record_bytes first_change ≡ bytes_of record_one }
{}

/// A change of a range is a record of format 2.
pub fn row_of_a_range()
    ensures { record_bytes first_ranges ≡ bytes_of record_two }
{}

/// Records of both formats in one log, and a torn rest.
pub fn row_of_a_log()
    ensures records { records_of two_nodes (bytes_of record_one ++ bytes_of record_two ++ take 36 (bytes_of record_one)) ≡ first_change ∷ first_ranges ∷ [] }
    ensures whole { whole_len two_nodes (bytes_of record_one ++ bytes_of record_two ++ take 36 (bytes_of record_one)) ≡ 74 }
{}

/// A changed range is a maximal run of written places: a gap of one place parts two of them.
pub fn row_of_written_places()
    ensures runs { ranges_of (λ i. list_any (λ w. w == i) (2 ∷ 3 ∷ 5 ∷ [])) (bytes_of (codes "0000beef77110000")) ≡ range 2 (bytes_of (codes "beef")) ∷ range 5 (bytes_of (codes "11")) ∷ [] }
    ensures put_over { put_ranges (range 2 (bytes_of (codes "beef")) ∷ range 5 (bytes_of (codes "11")) ∷ []) (replicate 8 9) ≡ bytes_of (codes "0909beef09110909") }
{}

/// Page 0 at version 1.
pub fn row_of_a_stored_page()
    ensures written { stored_bytes 0 first_page ≡ bytes_of stored_one }
    ensures read { stored_page 0 (bytes_of stored_one) ≡ Ok first_page }
    ensures never_written { stored_page 3 (replicate 16 0 ++ bytes_of (codes "0000beef00000000")) ≡ Ok (record { version = 0; bytes = replicate 8 0 }) }
    ensures of_another_page { stored_page 1 (bytes_of stored_one) ≡ Err (record { expected = 2; found = 1 }) }
{}

/// A revocation of page 1 in epoch 1, and what is wrong with other bytes.
pub fn row_of_a_message()
    ensures bytes { message_bytes a_revocation_message ≡ bytes_of (codes "000000010400000001") }
    ensures read { decoded two_nodes (bytes_of (codes "000000010400000001")) ≡ Ok a_revocation_message }
    ensures short { decoded two_nodes (bytes_of (codes "0000000104000000")) ≡ Err (record { fault = Short; place = 5 }) }
    ensures kind { decoded two_nodes (bytes_of (codes "000000010900000001")) ≡ Err (record { fault = BadKind; place = 4 }) }
    ensures page { decoded two_nodes (bytes_of (codes "000000010400000004")) ≡ Err (record { fault = BadField; place = 5 }) }
    ensures more { decoded two_nodes (bytes_of (codes "00000001040000000100")) ≡ Err (record { fault = TooLong; place = 9 }) }
{}

/// A message of each kind, both ways.
pub fn row_of_all_kinds()
    ensures bytes { map (λ s. message_bytes s.message) all_kinds ≡ map (λ s. bytes_of s.text) all_kinds }
    ensures read { map (λ s. decoded two_nodes (bytes_of s.text)) all_kinds ≡ map (λ s. Ok s.message) all_kinds }
{}

/// Bytes that are no message, with the first field at fault.
pub fn row_of_malformed_messages()
    ensures { map (λ b. decoded two_nodes (bytes_of b.text)) malformed ≡ map (λ b. Err (record { fault = b.fault; place = b.place })) malformed }
{}

/// Records of two pages, and bytes that begin with no record.
pub fn row_of_records()
    ensures good { map (λ text. whole_len two_nodes (bytes_of text)) good_records ≡ map (λ text. length (bytes_of text)) good_records }
    ensures again { map (λ text. flat_map record_bytes (records_of two_nodes (bytes_of text))) good_records ≡ map bytes_of good_records }
    ensures bad { map (λ text. whole_len two_nodes (bytes_of text)) no_records ≡ map (λ text. 0) no_records }
{}
