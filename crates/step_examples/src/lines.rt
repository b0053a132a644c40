//! The lines of commands that several cases have.

/// The create of a box.
pub(crate) const CREATE: &str =
    r#"create s {"template":{"heat_template_version":"2018-08-31","resources":{"a":{"type":"Test::Box","properties":{"size":1}}}}}"#;

/// The same, whose failure is rolled back.
pub(crate) const CREATE_BACK: &str =
    r#"create s {"disable_rollback":false,"template":{"heat_template_version":"2018-08-31","resources":{"a":{"type":"Test::Box","properties":{"size":1}}}}}"#;

/// The create of a box in the zone x.
pub(crate) const CREATE_X: &str =
    r#"create s {"template":{"heat_template_version":"2018-08-31","resources":{"a":{"type":"Test::Box","properties":{"zone":"x"}}}}}"#;

/// The create of a box that is retained.
pub(crate) const CREATE_KEPT: &str =
    r#"create s {"template":{"heat_template_version":"2018-08-31","resources":{"a":{"type":"Test::Box","deletion_policy":"Retain"}}}}"#;

/// The create of two boxes, of which one needs the other.
pub(crate) const CREATE_TWO: &str =
    r#"create s {"template":{"heat_template_version":"2018-08-31","resources":{"a":{"type":"Test::Box","properties":{"size":1}},"b":{"type":"Test::Box","properties":{"link":{"get_resource":"a"}}}}}}"#;

/// The update to the box of the create.
pub(crate) const UPDATE: &str =
    r#"update s {"template":{"heat_template_version":"2018-08-31","resources":{"a":{"type":"Test::Box","properties":{"size":1}}}}}"#;

/// The update to another size, whose failure is rolled back.
pub(crate) const UPDATE_2: &str =
    r#"update s {"disable_rollback":false,"template":{"heat_template_version":"2018-08-31","resources":{"a":{"type":"Test::Box","properties":{"size":2}}}}}"#;

/// The update to the zone y.
pub(crate) const UPDATE_Y: &str =
    r#"update s {"template":{"heat_template_version":"2018-08-31","resources":{"a":{"type":"Test::Box","properties":{"zone":"y"}}}}}"#;

/// The update to another box.
pub(crate) const UPDATE_B: &str =
    r#"update s {"template":{"heat_template_version":"2018-08-31","resources":{"b":{"type":"Test::Box","properties":{}}}}}"#;
