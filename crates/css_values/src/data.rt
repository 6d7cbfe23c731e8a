//! The names of properties as data.

/// The shorthands, and the other names of longhands, each with the longhands that it sets: a row a line,
/// with a colon after its name and spaces between the longhands. Each is what Chromium sets, and `all`
/// everything but `direction`, `unicode-bidi` and custom properties.
pub const SHORTHANDS: &str = "\
    -webkit-align-content:align-content\n\
    -webkit-align-items:align-items\n\
    -webkit-align-self:align-self\n\
    -webkit-animation:animation-duration animation-timing-function animation-delay \
    animation-iteration-count animation-direction animation-fill-mode animation-play-state \
    animation-name animation-timeline animation-range-start animation-range-end\n\
    -webkit-animation-delay:animation-delay\n\
    -webkit-animation-direction:animation-direction\n\
    -webkit-animation-duration:animation-duration\n\
    -webkit-animation-fill-mode:animation-fill-mode\n\
    -webkit-animation-iteration-count:animation-iteration-count\n\
    -webkit-animation-name:animation-name\n\
    -webkit-animation-play-state:animation-play-state\n\
    -webkit-animation-timing-function:animation-timing-function\n\
    -webkit-app-region:app-region\n\
    -webkit-appearance:appearance\n\
    -webkit-backface-visibility:backface-visibility\n\
    -webkit-background-clip:background-clip\n\
    -webkit-background-origin:background-origin\n\
    -webkit-background-size:background-size\n\
    -webkit-border-after:border-block-end-width border-block-end-style border-block-end-color\n\
    -webkit-border-after-color:border-block-end-color\n\
    -webkit-border-after-style:border-block-end-style\n\
    -webkit-border-after-width:border-block-end-width\n\
    -webkit-border-before:border-block-start-width border-block-start-style \
    border-block-start-color\n\
    -webkit-border-before-color:border-block-start-color\n\
    -webkit-border-before-style:border-block-start-style\n\
    -webkit-border-before-width:border-block-start-width\n\
    -webkit-border-bottom-left-radius:border-bottom-left-radius\n\
    -webkit-border-bottom-right-radius:border-bottom-right-radius\n\
    -webkit-border-end:border-inline-end-width border-inline-end-style border-inline-end-color\n\
    -webkit-border-end-color:border-inline-end-color\n\
    -webkit-border-end-style:border-inline-end-style\n\
    -webkit-border-end-width:border-inline-end-width\n\
    -webkit-border-radius:border-top-left-radius border-top-right-radius \
    border-bottom-right-radius border-bottom-left-radius\n\
    -webkit-border-start:border-inline-start-width border-inline-start-style \
    border-inline-start-color\n\
    -webkit-border-start-color:border-inline-start-color\n\
    -webkit-border-start-style:border-inline-start-style\n\
    -webkit-border-start-width:border-inline-start-width\n\
    -webkit-border-top-left-radius:border-top-left-radius\n\
    -webkit-border-top-right-radius:border-top-right-radius\n\
    -webkit-box-shadow:box-shadow\n\
    -webkit-box-sizing:box-sizing\n\
    -webkit-clip-path:clip-path\n\
    -webkit-column-break-after:break-after\n\
    -webkit-column-break-before:break-before\n\
    -webkit-column-break-inside:break-inside\n\
    -webkit-column-count:column-count\n\
    -webkit-column-gap:column-gap\n\
    -webkit-column-rule:column-rule-width column-rule-style column-rule-color\n\
    -webkit-column-rule-color:column-rule-color\n\
    -webkit-column-rule-style:column-rule-style\n\
    -webkit-column-rule-width:column-rule-width\n\
    -webkit-column-span:column-span\n\
    -webkit-column-width:column-width\n\
    -webkit-columns:column-width column-count column-height column-wrap\n\
    -webkit-filter:filter\n\
    -webkit-flex:flex-grow flex-shrink flex-basis\n\
    -webkit-flex-basis:flex-basis\n\
    -webkit-flex-direction:flex-direction\n\
    -webkit-flex-flow:flex-direction flex-wrap\n\
    -webkit-flex-grow:flex-grow\n\
    -webkit-flex-shrink:flex-shrink\n\
    -webkit-flex-wrap:flex-wrap\n\
    -webkit-font-feature-settings:font-feature-settings\n\
    -webkit-hyphenate-character:hyphenate-character\n\
    -webkit-justify-content:justify-content\n\
    -webkit-logical-height:block-size\n\
    -webkit-logical-width:inline-size\n\
    -webkit-margin-after:margin-block-end\n\
    -webkit-margin-before:margin-block-start\n\
    -webkit-margin-end:margin-inline-end\n\
    -webkit-margin-start:margin-inline-start\n\
    -webkit-mask:mask-image -webkit-mask-position-x -webkit-mask-position-y mask-size mask-repeat \
    mask-origin mask-clip mask-composite mask-mode\n\
    -webkit-mask-box-image:-webkit-mask-box-image-source -webkit-mask-box-image-slice \
    -webkit-mask-box-image-width -webkit-mask-box-image-outset -webkit-mask-box-image-repeat\n\
    -webkit-mask-clip:mask-clip\n\
    -webkit-mask-composite:mask-composite\n\
    -webkit-mask-image:mask-image\n\
    -webkit-mask-origin:mask-origin\n\
    -webkit-mask-position:-webkit-mask-position-x -webkit-mask-position-y\n\
    -webkit-mask-repeat:mask-repeat\n\
    -webkit-mask-size:mask-size\n\
    -webkit-max-logical-height:max-block-size\n\
    -webkit-max-logical-width:max-inline-size\n\
    -webkit-min-logical-height:min-block-size\n\
    -webkit-min-logical-width:min-inline-size\n\
    -webkit-opacity:opacity\n\
    -webkit-order:order\n\
    -webkit-padding-after:padding-block-end\n\
    -webkit-padding-before:padding-block-start\n\
    -webkit-padding-end:padding-inline-end\n\
    -webkit-padding-start:padding-inline-start\n\
    -webkit-perspective:perspective\n\
    -webkit-perspective-origin:perspective-origin\n\
    -webkit-print-color-adjust:print-color-adjust\n\
    -webkit-shape-image-threshold:shape-image-threshold\n\
    -webkit-shape-margin:shape-margin\n\
    -webkit-shape-outside:shape-outside\n\
    -webkit-text-emphasis:text-emphasis-style text-emphasis-color\n\
    -webkit-text-emphasis-color:text-emphasis-color\n\
    -webkit-text-emphasis-position:text-emphasis-position\n\
    -webkit-text-emphasis-style:text-emphasis-style\n\
    -webkit-text-size-adjust:text-size-adjust\n\
    -webkit-text-stroke:-webkit-text-stroke-width -webkit-text-stroke-color\n\
    -webkit-transform:transform\n\
    -webkit-transform-origin:transform-origin\n\
    -webkit-transform-style:transform-style\n\
    -webkit-transition:transition-property transition-duration transition-timing-function \
    transition-delay transition-behavior\n\
    -webkit-transition-delay:transition-delay\n\
    -webkit-transition-duration:transition-duration\n\
    -webkit-transition-property:transition-property\n\
    -webkit-transition-timing-function:transition-timing-function\n\
    -webkit-user-select:user-select\n\
    all:-webkit-border-horizontal-spacing -webkit-border-image -webkit-border-vertical-spacing \
    -webkit-box-align -webkit-box-decoration-break -webkit-box-direction -webkit-box-flex \
    -webkit-box-ordinal-group -webkit-box-orient -webkit-box-pack -webkit-box-reflect \
    -webkit-font-smoothing -webkit-line-break -webkit-line-clamp -webkit-locale \
    -webkit-mask-box-image-outset -webkit-mask-box-image-repeat -webkit-mask-box-image-slice \
    -webkit-mask-box-image-source -webkit-mask-box-image-width -webkit-mask-position-x \
    -webkit-mask-position-y -webkit-perspective-origin-x -webkit-perspective-origin-y \
    -webkit-rtl-ordering -webkit-ruby-position -webkit-tap-highlight-color -webkit-text-combine \
    -webkit-text-decorations-in-effect -webkit-text-fill-color -webkit-text-orientation \
    -webkit-text-security -webkit-text-stroke-color -webkit-text-stroke-width \
    -webkit-transform-origin-x -webkit-transform-origin-y -webkit-transform-origin-z \
    -webkit-user-drag -webkit-user-modify -webkit-writing-mode accent-color align-content \
    align-items align-self alignment-baseline anchor-name anchor-scope animation-composition \
    animation-delay animation-direction animation-duration animation-fill-mode \
    animation-iteration-count animation-name animation-play-state animation-range-end \
    animation-range-start animation-timeline animation-timing-function animation-trigger \
    app-region appearance aspect-ratio backdrop-filter backface-visibility background-attachment \
    background-blend-mode background-clip background-color background-image background-origin \
    background-position-x background-position-y background-repeat background-size baseline-shift \
    baseline-source block-size border-block-end-color border-block-end-style \
    border-block-end-width border-block-start-color border-block-start-style \
    border-block-start-width border-bottom-color border-bottom-left-radius \
    border-bottom-right-radius border-bottom-style border-bottom-width border-collapse \
    border-end-end-radius border-end-start-radius border-image-outset border-image-repeat \
    border-image-slice border-image-source border-image-width border-inline-end-color \
    border-inline-end-style border-inline-end-width border-inline-start-color \
    border-inline-start-style border-inline-start-width border-left-color border-left-style \
    border-left-width border-right-color border-right-style border-right-width border-shape \
    border-start-end-radius border-start-start-radius border-top-color border-top-left-radius \
    border-top-right-radius border-top-style border-top-width bottom box-decoration-break \
    box-shadow box-sizing break-after break-before break-inside buffered-rendering caption-side \
    caret-animation caret-color caret-shape clear clip clip-path clip-rule color \
    color-interpolation color-interpolation-filters color-rendering color-scheme column-count \
    column-fill column-gap column-height column-rule-break column-rule-color \
    column-rule-inset-cap-end column-rule-inset-cap-start column-rule-inset-junction-end \
    column-rule-inset-junction-start column-rule-style column-rule-visibility-items \
    column-rule-width column-span column-width column-wrap contain contain-intrinsic-block-size \
    contain-intrinsic-height contain-intrinsic-inline-size contain-intrinsic-width container-name \
    container-type content content-visibility corner-bottom-left-shape corner-bottom-right-shape \
    corner-end-end-shape corner-end-start-shape corner-start-end-shape corner-start-start-shape \
    corner-top-left-shape corner-top-right-shape counter-increment counter-reset counter-set \
    cursor cx cy d display dominant-baseline dynamic-range-limit empty-cells field-sizing fill \
    fill-opacity fill-rule filter flex-basis flex-direction flex-grow flex-line-count flex-shrink \
    flex-wrap float flood-color flood-opacity font-family font-feature-settings font-kerning \
    font-language-override font-optical-sizing font-palette font-size font-size-adjust \
    font-stretch font-style font-synthesis-small-caps font-synthesis-style font-synthesis-weight \
    font-variant-alternates font-variant-caps font-variant-east-asian font-variant-emoji \
    font-variant-ligatures font-variant-numeric font-variant-position font-variation-settings \
    font-weight forced-color-adjust frame-sizing grid-auto-columns grid-auto-flow grid-auto-rows \
    grid-column-end grid-column-start grid-row-end grid-row-start grid-template-areas \
    grid-template-columns grid-template-rows height hyphenate-character hyphenate-limit-chars \
    hyphens image-orientation image-rendering initial-letter inline-size inset-block-end \
    inset-block-start inset-inline-end inset-inline-start interactivity interest-delay-end \
    interest-delay-start interpolate-size isolation justify-content justify-items justify-self \
    left letter-spacing lighting-color line-break line-height list-style-image list-style-position \
    list-style-type margin-block-end margin-block-start margin-bottom margin-inline-end \
    margin-inline-start margin-left margin-right margin-top margin-trim marker-end marker-mid \
    marker-start mask-clip mask-composite mask-image mask-mode mask-origin mask-repeat mask-size \
    mask-type math-depth math-shift math-style max-block-size max-height max-inline-size max-width \
    min-block-size min-height min-inline-size min-width mix-blend-mode object-fit object-position \
    object-view-box offset-anchor offset-distance offset-path offset-position offset-rotate \
    opacity order orphans outline-color outline-offset outline-style outline-width overflow-anchor \
    overflow-block overflow-clip-margin overflow-inline overflow-wrap overflow-x overflow-y \
    overlay overscroll-behavior-block overscroll-behavior-inline overscroll-behavior-x \
    overscroll-behavior-y padding-block-end padding-block-start padding-bottom padding-inline-end \
    padding-inline-start padding-left padding-right padding-top page page-margin-safety \
    page-orientation paint-order perspective perspective-origin pointer-events position \
    position-anchor position-area position-try-fallbacks position-try-order position-visibility \
    print-color-adjust quotes r reading-flow reading-order resize right rotate row-gap \
    row-rule-break row-rule-color row-rule-inset-cap-end row-rule-inset-cap-start \
    row-rule-inset-junction-end row-rule-inset-junction-start row-rule-style \
    row-rule-visibility-items row-rule-width ruby-align ruby-overhang ruby-position rule-overlap \
    rx ry scale scroll-axis-lock scroll-behavior scroll-initial-target scroll-margin-block-end \
    scroll-margin-block-start scroll-margin-bottom scroll-margin-inline-end \
    scroll-margin-inline-start scroll-margin-left scroll-margin-right scroll-margin-top \
    scroll-marker-group scroll-padding-block-end scroll-padding-block-start scroll-padding-bottom \
    scroll-padding-inline-end scroll-padding-inline-start scroll-padding-left scroll-padding-right \
    scroll-padding-top scroll-snap-align scroll-snap-stop scroll-snap-type scroll-target-group \
    scroll-timeline-axis scroll-timeline-name scrollbar-color scrollbar-gutter scrollbar-width \
    shape-image-threshold shape-margin shape-outside shape-rendering size speak stop-color \
    stop-opacity stroke stroke-dasharray stroke-dashoffset stroke-linecap stroke-linejoin \
    stroke-miterlimit stroke-opacity stroke-width tab-size table-layout text-align text-align-last \
    text-anchor text-autospace text-box-edge text-box-trim text-combine-upright \
    text-decoration-color text-decoration-line text-decoration-skip-ink text-decoration-style \
    text-decoration-thickness text-emphasis-color text-emphasis-position text-emphasis-style \
    text-fit text-indent text-justify text-orientation text-overflow text-rendering text-shadow \
    text-size-adjust text-spacing-trim text-transform text-underline-offset \
    text-underline-position text-wrap-mode text-wrap-style timeline-scope \
    timeline-trigger-activation-range-end timeline-trigger-activation-range-start \
    timeline-trigger-active-range-end timeline-trigger-active-range-start timeline-trigger-name \
    timeline-trigger-source top touch-action transform transform-box transform-origin \
    transform-style transition-behavior transition-delay transition-duration transition-property \
    transition-timing-function translate trigger-scope user-select vector-effect vertical-align \
    view-timeline-axis view-timeline-inset view-timeline-name view-transition-class \
    view-transition-group view-transition-name view-transition-scope visibility \
    white-space-collapse widows width will-change window-drag word-break word-spacing writing-mode \
    x y z-index zoom\n\
    animation:animation-duration animation-timing-function animation-delay \
    animation-iteration-count animation-direction animation-fill-mode animation-play-state \
    animation-name animation-timeline animation-range-start animation-range-end\n\
    animation-range:animation-range-start animation-range-end\n\
    background:background-image background-position-x background-position-y background-size \
    background-repeat background-attachment background-origin background-clip background-color\n\
    background-position:background-position-x background-position-y\n\
    border:border-top-color border-top-style border-top-width border-right-color \
    border-right-style border-right-width border-bottom-color border-bottom-style \
    border-bottom-width border-left-color border-left-style border-left-width border-image-source \
    border-image-slice border-image-width border-image-outset border-image-repeat\n\
    border-block:border-block-start-color border-block-start-style border-block-start-width \
    border-block-end-color border-block-end-style border-block-end-width\n\
    border-block-color:border-block-start-color border-block-end-color\n\
    border-block-end:border-block-end-width border-block-end-style border-block-end-color\n\
    border-block-start:border-block-start-width border-block-start-style border-block-start-color\n\
    border-block-style:border-block-start-style border-block-end-style\n\
    border-block-width:border-block-start-width border-block-end-width\n\
    border-bottom:border-bottom-width border-bottom-style border-bottom-color\n\
    border-color:border-top-color border-right-color border-bottom-color border-left-color\n\
    border-image:border-image-source border-image-slice border-image-width border-image-outset \
    border-image-repeat\n\
    border-inline:border-inline-start-color border-inline-start-style border-inline-start-width \
    border-inline-end-color border-inline-end-style border-inline-end-width\n\
    border-inline-color:border-inline-start-color border-inline-end-color\n\
    border-inline-end:border-inline-end-width border-inline-end-style border-inline-end-color\n\
    border-inline-start:border-inline-start-width border-inline-start-style \
    border-inline-start-color\n\
    border-inline-style:border-inline-start-style border-inline-end-style\n\
    border-inline-width:border-inline-start-width border-inline-end-width\n\
    border-left:border-left-width border-left-style border-left-color\n\
    border-radius:border-top-left-radius border-top-right-radius border-bottom-right-radius \
    border-bottom-left-radius\n\
    border-right:border-right-width border-right-style border-right-color\n\
    border-spacing:-webkit-border-horizontal-spacing -webkit-border-vertical-spacing\n\
    border-style:border-top-style border-right-style border-bottom-style border-left-style\n\
    border-top:border-top-width border-top-style border-top-color\n\
    border-width:border-top-width border-right-width border-bottom-width border-left-width\n\
    column-rule:column-rule-width column-rule-style column-rule-color\n\
    column-rule-inset:column-rule-inset-cap-start column-rule-inset-cap-end \
    column-rule-inset-junction-start column-rule-inset-junction-end\n\
    column-rule-inset-cap:column-rule-inset-cap-start column-rule-inset-cap-end\n\
    column-rule-inset-end:column-rule-inset-cap-end column-rule-inset-junction-end\n\
    column-rule-inset-junction:column-rule-inset-junction-start column-rule-inset-junction-end\n\
    column-rule-inset-start:column-rule-inset-cap-start column-rule-inset-junction-start\n\
    columns:column-width column-count column-height column-wrap\n\
    contain-intrinsic-size:contain-intrinsic-width contain-intrinsic-height\n\
    container:container-name container-type\n\
    corner-block-end-shape:corner-end-start-shape corner-end-end-shape\n\
    corner-block-start-shape:corner-start-start-shape corner-start-end-shape\n\
    corner-bottom-shape:corner-bottom-left-shape corner-bottom-right-shape\n\
    corner-inline-end-shape:corner-start-end-shape corner-end-end-shape\n\
    corner-inline-start-shape:corner-start-start-shape corner-end-start-shape\n\
    corner-left-shape:corner-top-left-shape corner-bottom-left-shape\n\
    corner-right-shape:corner-top-right-shape corner-bottom-right-shape\n\
    corner-shape:corner-top-left-shape corner-top-right-shape corner-bottom-right-shape \
    corner-bottom-left-shape\n\
    corner-top-shape:corner-top-left-shape corner-top-right-shape\n\
    flex:flex-grow flex-shrink flex-basis\n\
    flex-flow:flex-direction flex-wrap\n\
    font:font-style font-variant-ligatures font-variant-caps font-variant-numeric \
    font-variant-east-asian font-variant-alternates font-variant-position font-variant-emoji \
    font-weight font-stretch font-size line-height font-family font-optical-sizing \
    font-size-adjust font-kerning font-feature-settings font-variation-settings \
    font-language-override\n\
    font-synthesis:font-synthesis-weight font-synthesis-style font-synthesis-small-caps\n\
    font-variant:font-variant-ligatures font-variant-caps font-variant-alternates \
    font-variant-numeric font-variant-east-asian font-variant-position font-variant-emoji\n\
    gap:row-gap column-gap\n\
    grid:grid-template-rows grid-template-columns grid-template-areas grid-auto-flow \
    grid-auto-rows grid-auto-columns\n\
    grid-area:grid-row-start grid-column-start grid-row-end grid-column-end\n\
    grid-column:grid-column-start grid-column-end\n\
    grid-column-gap:column-gap\n\
    grid-gap:row-gap column-gap\n\
    grid-row:grid-row-start grid-row-end\n\
    grid-row-gap:row-gap\n\
    grid-template:grid-template-rows grid-template-columns grid-template-areas\n\
    inset:top right bottom left\n\
    inset-block:inset-block-start inset-block-end\n\
    inset-inline:inset-inline-start inset-inline-end\n\
    interest-delay:interest-delay-start interest-delay-end\n\
    list-style:list-style-position list-style-image list-style-type\n\
    margin:margin-top margin-right margin-bottom margin-left\n\
    margin-block:margin-block-start margin-block-end\n\
    margin-inline:margin-inline-start margin-inline-end\n\
    marker:marker-start marker-mid marker-end\n\
    mask:mask-image -webkit-mask-position-x -webkit-mask-position-y mask-size mask-repeat \
    mask-origin mask-clip mask-composite mask-mode\n\
    mask-position:-webkit-mask-position-x -webkit-mask-position-y\n\
    offset:offset-position offset-path offset-distance offset-rotate offset-anchor\n\
    outline:outline-color outline-style outline-width\n\
    overflow:overflow-x overflow-y\n\
    overscroll-behavior:overscroll-behavior-x overscroll-behavior-y\n\
    padding:padding-top padding-right padding-bottom padding-left\n\
    padding-block:padding-block-start padding-block-end\n\
    padding-inline:padding-inline-start padding-inline-end\n\
    page-break-after:break-after\n\
    page-break-before:break-before\n\
    page-break-inside:break-inside\n\
    place-content:align-content justify-content\n\
    place-items:align-items justify-items\n\
    place-self:align-self justify-self\n\
    position-try:position-try-order position-try-fallbacks\n\
    row-rule:row-rule-width row-rule-style row-rule-color\n\
    row-rule-inset:row-rule-inset-cap-start row-rule-inset-cap-end row-rule-inset-junction-start \
    row-rule-inset-junction-end\n\
    row-rule-inset-cap:row-rule-inset-cap-start row-rule-inset-cap-end\n\
    row-rule-inset-end:row-rule-inset-cap-end row-rule-inset-junction-end\n\
    row-rule-inset-junction:row-rule-inset-junction-start row-rule-inset-junction-end\n\
    row-rule-inset-start:row-rule-inset-cap-start row-rule-inset-junction-start\n\
    rule:column-rule-width column-rule-style column-rule-color row-rule-width row-rule-style \
    row-rule-color\n\
    rule-break:row-rule-break column-rule-break\n\
    rule-color:column-rule-color row-rule-color\n\
    rule-inset:row-rule-inset-cap-start row-rule-inset-cap-end row-rule-inset-junction-start \
    row-rule-inset-junction-end column-rule-inset-cap-start column-rule-inset-cap-end \
    column-rule-inset-junction-start column-rule-inset-junction-end\n\
    rule-inset-cap:row-rule-inset-cap-start row-rule-inset-cap-end column-rule-inset-cap-start \
    column-rule-inset-cap-end\n\
    rule-inset-end:column-rule-inset-cap-end column-rule-inset-junction-end row-rule-inset-cap-end \
    row-rule-inset-junction-end\n\
    rule-inset-junction:row-rule-inset-junction-start row-rule-inset-junction-end \
    column-rule-inset-junction-start column-rule-inset-junction-end\n\
    rule-inset-start:column-rule-inset-cap-start column-rule-inset-junction-start \
    row-rule-inset-cap-start row-rule-inset-junction-start\n\
    rule-style:column-rule-style row-rule-style\n\
    rule-visibility-items:column-rule-visibility-items row-rule-visibility-items\n\
    rule-width:column-rule-width row-rule-width\n\
    scroll-margin:scroll-margin-top scroll-margin-right scroll-margin-bottom scroll-margin-left\n\
    scroll-margin-block:scroll-margin-block-start scroll-margin-block-end\n\
    scroll-margin-inline:scroll-margin-inline-start scroll-margin-inline-end\n\
    scroll-padding:scroll-padding-top scroll-padding-right scroll-padding-bottom \
    scroll-padding-left\n\
    scroll-padding-block:scroll-padding-block-start scroll-padding-block-end\n\
    scroll-padding-inline:scroll-padding-inline-start scroll-padding-inline-end\n\
    scroll-timeline:scroll-timeline-name scroll-timeline-axis\n\
    text-box:text-box-trim text-box-edge\n\
    text-decoration:text-decoration-line text-decoration-thickness text-decoration-style \
    text-decoration-color\n\
    text-emphasis:text-emphasis-style text-emphasis-color\n\
    text-wrap:text-wrap-mode text-wrap-style\n\
    timeline-trigger:timeline-trigger-name timeline-trigger-source \
    timeline-trigger-activation-range-start timeline-trigger-activation-range-end \
    timeline-trigger-active-range-start timeline-trigger-active-range-end\n\
    timeline-trigger-activation-range:timeline-trigger-activation-range-start \
    timeline-trigger-activation-range-end\n\
    timeline-trigger-active-range:timeline-trigger-active-range-start \
    timeline-trigger-active-range-end\n\
    transition:transition-property transition-duration transition-timing-function transition-delay \
    transition-behavior\n\
    view-timeline:view-timeline-name view-timeline-axis view-timeline-inset\n\
    white-space:white-space-collapse text-wrap-mode\n\
    word-wrap:overflow-wrap\n";

/// The logical and the physical name of each property that has both (CSS Logical Properties 1), where text is
/// horizontal, from left to right: a row a line, a name, a colon, and the other name of what it sets. Each is
/// what Chromium sets.
pub const LOGICAL: &str = "\
    block-size:height\n\
    border-block-end-color:border-bottom-color\n\
    border-block-end-style:border-bottom-style\n\
    border-block-end-width:border-bottom-width\n\
    border-block-start-color:border-top-color\n\
    border-block-start-style:border-top-style\n\
    border-block-start-width:border-top-width\n\
    border-bottom-color:border-block-end-color\n\
    border-bottom-left-radius:border-end-start-radius\n\
    border-bottom-right-radius:border-end-end-radius\n\
    border-bottom-style:border-block-end-style\n\
    border-bottom-width:border-block-end-width\n\
    border-end-end-radius:border-bottom-right-radius\n\
    border-end-start-radius:border-bottom-left-radius\n\
    border-inline-end-color:border-right-color\n\
    border-inline-end-style:border-right-style\n\
    border-inline-end-width:border-right-width\n\
    border-inline-start-color:border-left-color\n\
    border-inline-start-style:border-left-style\n\
    border-inline-start-width:border-left-width\n\
    border-left-color:border-inline-start-color\n\
    border-left-style:border-inline-start-style\n\
    border-left-width:border-inline-start-width\n\
    border-right-color:border-inline-end-color\n\
    border-right-style:border-inline-end-style\n\
    border-right-width:border-inline-end-width\n\
    border-start-end-radius:border-top-right-radius\n\
    border-start-start-radius:border-top-left-radius\n\
    border-top-color:border-block-start-color\n\
    border-top-left-radius:border-start-start-radius\n\
    border-top-right-radius:border-start-end-radius\n\
    border-top-style:border-block-start-style\n\
    border-top-width:border-block-start-width\n\
    bottom:inset-block-end\n\
    contain-intrinsic-block-size:contain-intrinsic-height\n\
    contain-intrinsic-height:contain-intrinsic-block-size\n\
    contain-intrinsic-inline-size:contain-intrinsic-width\n\
    contain-intrinsic-width:contain-intrinsic-inline-size\n\
    corner-bottom-left-shape:corner-end-start-shape\n\
    corner-bottom-right-shape:corner-end-end-shape\n\
    corner-end-end-shape:corner-bottom-right-shape\n\
    corner-end-start-shape:corner-bottom-left-shape\n\
    corner-start-end-shape:corner-top-right-shape\n\
    corner-start-start-shape:corner-top-left-shape\n\
    corner-top-left-shape:corner-start-start-shape\n\
    corner-top-right-shape:corner-start-end-shape\n\
    height:block-size\n\
    inline-size:width\n\
    inset-block-end:bottom\n\
    inset-block-start:top\n\
    inset-inline-end:right\n\
    inset-inline-start:left\n\
    left:inset-inline-start\n\
    margin-block-end:margin-bottom\n\
    margin-block-start:margin-top\n\
    margin-bottom:margin-block-end\n\
    margin-inline-end:margin-right\n\
    margin-inline-start:margin-left\n\
    margin-left:margin-inline-start\n\
    margin-right:margin-inline-end\n\
    margin-top:margin-block-start\n\
    max-block-size:max-height\n\
    max-height:max-block-size\n\
    max-inline-size:max-width\n\
    max-width:max-inline-size\n\
    min-block-size:min-height\n\
    min-height:min-block-size\n\
    min-inline-size:min-width\n\
    min-width:min-inline-size\n\
    overflow-block:overflow-y\n\
    overflow-inline:overflow-x\n\
    overflow-x:overflow-inline\n\
    overflow-y:overflow-block\n\
    overscroll-behavior-block:overscroll-behavior-y\n\
    overscroll-behavior-inline:overscroll-behavior-x\n\
    overscroll-behavior-x:overscroll-behavior-inline\n\
    overscroll-behavior-y:overscroll-behavior-block\n\
    padding-block-end:padding-bottom\n\
    padding-block-start:padding-top\n\
    padding-bottom:padding-block-end\n\
    padding-inline-end:padding-right\n\
    padding-inline-start:padding-left\n\
    padding-left:padding-inline-start\n\
    padding-right:padding-inline-end\n\
    padding-top:padding-block-start\n\
    right:inset-inline-end\n\
    scroll-margin-block-end:scroll-margin-bottom\n\
    scroll-margin-block-start:scroll-margin-top\n\
    scroll-margin-bottom:scroll-margin-block-end\n\
    scroll-margin-inline-end:scroll-margin-right\n\
    scroll-margin-inline-start:scroll-margin-left\n\
    scroll-margin-left:scroll-margin-inline-start\n\
    scroll-margin-right:scroll-margin-inline-end\n\
    scroll-margin-top:scroll-margin-block-start\n\
    scroll-padding-block-end:scroll-padding-bottom\n\
    scroll-padding-block-start:scroll-padding-top\n\
    scroll-padding-bottom:scroll-padding-block-end\n\
    scroll-padding-inline-end:scroll-padding-right\n\
    scroll-padding-inline-start:scroll-padding-left\n\
    scroll-padding-left:scroll-padding-inline-start\n\
    scroll-padding-right:scroll-padding-inline-end\n\
    scroll-padding-top:scroll-padding-block-start\n\
    top:inset-block-start\n\
    width:inline-size\n";

/// The properties that are inherited, with spaces between them: those of CSS 2.1 and SVG, and those of
/// Chromium. A shorthand is one of them if all that it sets are.
pub const INHERITED: &str = "\
    -webkit-app-region -webkit-border-horizontal-spacing -webkit-border-vertical-spacing \
    -webkit-font-feature-settings -webkit-font-smoothing -webkit-hyphenate-character \
    -webkit-line-break -webkit-locale -webkit-print-color-adjust -webkit-rtl-ordering \
    -webkit-ruby-position -webkit-tap-highlight-color -webkit-text-combine \
    -webkit-text-decorations-in-effect -webkit-text-emphasis -webkit-text-emphasis-color \
    -webkit-text-emphasis-position -webkit-text-emphasis-style -webkit-text-fill-color \
    -webkit-text-orientation -webkit-text-security -webkit-text-size-adjust -webkit-text-stroke \
    -webkit-text-stroke-color -webkit-text-stroke-width -webkit-user-modify -webkit-user-select \
    -webkit-writing-mode accent-color app-region azimuth border-collapse border-spacing \
    caption-side caret-animation caret-color caret-shape clip-rule color color-interpolation \
    color-interpolation-filters color-rendering color-scheme cursor direction dominant-baseline \
    dynamic-range-limit elevation empty-cells fill fill-opacity fill-rule font font-family \
    font-feature-settings font-kerning font-language-override font-optical-sizing font-palette \
    font-size font-size-adjust font-stretch font-style font-synthesis font-synthesis-small-caps \
    font-synthesis-style font-synthesis-weight font-variant font-variant-alternates \
    font-variant-caps font-variant-east-asian font-variant-emoji font-variant-ligatures \
    font-variant-numeric font-variant-position font-variation-settings font-weight \
    forced-color-adjust glyph-orientation-vertical hyphenate-character hyphenate-limit-chars \
    hyphens image-orientation image-rendering interactivity interpolate-size letter-spacing \
    line-break line-height list-style list-style-image list-style-position list-style-type marker \
    marker-end marker-mid marker-start math-depth math-shift math-style orphans overflow-wrap \
    paint-order pitch pitch-range pointer-events print-color-adjust quotes richness ruby-align \
    ruby-overhang ruby-position scrollbar-color shape-rendering speak speak-header speak-numeral \
    speak-punctuation speech-rate stress stroke stroke-dasharray stroke-dashoffset stroke-linecap \
    stroke-linejoin stroke-miterlimit stroke-opacity stroke-width tab-size text-align \
    text-align-last text-anchor text-autospace text-box-edge text-combine-upright \
    text-decoration-skip-ink text-emphasis text-emphasis-color text-emphasis-position \
    text-emphasis-style text-fit text-indent text-justify text-orientation text-rendering \
    text-shadow text-size-adjust text-spacing-trim text-transform text-underline-offset \
    text-underline-position text-wrap text-wrap-mode text-wrap-style user-select visibility \
    voice-family volume white-space white-space-collapse widows word-break word-spacing word-wrap \
    writing-mode";
